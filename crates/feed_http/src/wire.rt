//! A wire, whose members are answered one after the other.
ghost use Rattle.std.specs.Prelude.{◌≡◌, ◌<◌, ◌∷◌, ◌++◌, [], ℕ, All, IfOk, map, vec_len, vec_capacity};
ghost use Rattle.news_types.specs.declared.story.Incoming.{Incoming};
ghost use Rattle.news_types.specs.Fits.{FitsIncoming};
ghost use Rattle.news_types.specs.Names.{Bytes};
ghost use Rattle.wire_bodies.specs.Bodies.{FitsMember};
ghost use Rattle.feed_http.specs.Wires as said;
ghost use Rattle.feed_http.specs.Wires.{rows_response, IsEndedAs, story_turn};
ghost use Rattle.feed_http.specs.Turn.{IsToldAs};
ghost use Rattle.feed_http.specs.Serving.{CameTo, AnswersMember, AnswersWire};

use crate::answers::{Answers, HttpAnswer};
use crate::telling::or_no_memory;
use agency_runs::Told;
use desk_routes::{Asking, HttpAsk, Notice, Response, RoomAsk, WireAsk, notify, told_as};
use news_io::Clock;
use news_types::{Bytes, Incoming, Memory, Name};
use std::alloc::Global;
use wire_bodies::{BodyMember, rows_text, told_at};

/// What a member of a wire came to.
#[derive(Drop)]
pub(crate) struct Came {
    /// Its row; or, where it has none, what is answered in its place.
    pub(crate) row: Result<Vec<u8>, Response>,
    /// The place of the stop that its turn kept, if it kept one.
    pub(crate) stop: Option<u64>,
}

/// Whether the body of a response of this status is a row.
fn is_row(status: u16) -> bool
    ensures { result ≡ said.is_row status }
{
    status == 200 || status == 409
}

/// What a story came to whose turn was answered so.
fn came_of(answer: HttpAnswer) -> Came
    ensures stop { result.stop ≡ answer.stop }
    ensures row { (caller provider : Bytes) (reading : ℕ) (incoming : Incoming) → CameTo caller provider reading (story_turn caller provider reading incoming answer ∷ []) (Ok incoming) result.row }
{
    let HttpAnswer { response, stop } = answer;
    if is_row(response.status) {
        return Came {
            row: Ok(response.body.into_vec()),
            stop,
        };
    }
    Came {
        row: Err(response),
        stop,
    }
}

/// Asks a story in a turn of its own, as an item of the provider.
fn answer_story<A: Answers>(
    alloc: Global,
    room: &mut A,
    now: u64,
    caller: Name,
    provider: Name,
    incoming: Incoming,
) -> HttpAnswer
    requires ready { A.is_ready room.old }
    requires fits { FitsIncoming incoming }
    ensures turn { let t = story_turn caller provider now incoming result in A.turn room.old now t.read result room.new }
    ensures ready { A.is_ready room.new }
{
    let ask = HttpAsk::Ingest { provider, incoming };
    room.answer(alloc, now, Ok(RoomAsk::By(Asking { caller, ask })))
}

/// Answers a member of a wire at a reading of the clock, in seconds.
fn answer_member<A: Answers>(
    alloc: Global,
    room: &mut A,
    now: u64,
    caller: Name,
    provider: Name,
    member: BodyMember,
) -> Came
    requires ready { A.is_ready room.old }
    requires fits { FitsMember member }
    ensures came { AnswersMember A.turn room.old room.new caller provider now member result }
    ensures ready { A.is_ready room.new }
{
    match told_at(alloc, member, now) {
        Ok(Told::Line(line)) => Came {
            row: Ok(line),
            stop: None,
        },
        Ok(Told::Story(incoming)) => {
            came_of(answer_story(alloc, room, now, caller, provider, incoming))
        }
        Err(_) => Came {
            row: Err(notify(alloc, Notice::NoMemory)),
            stop: None,
        },
    }
}

/// The response with all rows of a wire.
fn tell_rows(alloc: Global, rows: &[Vec<u8>]) -> Response
    ensures { IsToldAs (rows_response 200 (map (λ row. row.items) rows.now)) result }
{
    or_no_memory(alloc, respond_rows(alloc, 200, rows))
}

fn respond_rows(alloc: Global, status: u16, rows: &[Vec<u8>]) -> Result<Response, Memory>
    ensures { IfOk result (λ response. response ≡ rows_response status (map (λ row. row.items) rows.now)) }
{
    Ok(told_as(status, Bytes::of(rows_text(alloc, rows)?)))
}

/// The response to a wire that ended with this response behind some rows.
fn tell_ended(alloc: Global, rows: &[Vec<u8>], ending: Response) -> Response
    ensures { IsEndedAs (map (λ row. row.items) rows.now) ending result }
{
    if rows.is_empty() {
        return ending;
    }
    match respond_rows(alloc, ending.status, rows) {
        Ok(response) => response,
        Err(_) => told_as(ending.status, Bytes::of(Vec::new(alloc))),
    }
}

/// Puts a row behind the others; it has its place.
fn put_row(rows: &mut Vec<Vec<u8>>, row: Vec<u8>)
    requires { vec_len rows.old < vec_capacity rows.old }
    ensures { rows.new.items ≡ rows.old.items ++ row ∷ [] }
{
    match rows.push(row) {
        Ok(()) => {}
        Err(_) => unreachable!(),
    }
}

/// Answers a wire, member by member: each by a reading of the clock of its own, and each story in a turn of its own. A turn
/// that is answered otherwise than by a row ends it, and so does want of memory; nothing behind that is asked. A story is
/// asked only where its row has its place.
pub(crate) fn answer_wire<A: Answers, C: Clock>(
    alloc: Global,
    room: &mut A,
    clock: &mut C,
    wire: WireAsk,
) -> HttpAnswer
    requires ready { A.is_ready room.old }
    requires fits { All FitsMember wire.members }
    ensures answered { AnswersWire A.turn C.clock room.old room.new clock.old clock.new wire result }
    ensures ready { A.is_ready room.new }
{
    let WireAsk {
        caller,
        provider,
        members,
    } = wire;
    let mut rows = Vec::new(alloc);
    let mut stop = None;
    for member in members.into_vec() {
        let now = clock.now();
        if let Err(_) = rows.reserve(1) {
            let response = tell_ended(alloc, rows.as_slice(), notify(alloc, Notice::NoMemory));
            return HttpAnswer { response, stop };
        }
        let came = answer_member(alloc, room, now, caller, provider, member);
        stop = stop.or(came.stop);
        match came.row {
            Ok(row) => put_row(&mut rows, row),
            Err(ending) => {
                let response = tell_ended(alloc, rows.as_slice(), ending);
                return HttpAnswer { response, stop };
            }
        }
    }
    HttpAnswer {
        response: tell_rows(alloc, rows.as_slice()),
        stop,
    }
}
