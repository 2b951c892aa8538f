//! The work of one turn.
ghost use Rattle.std.specs.Prelude.{◌≡◌, ℕ, IfOk, IsTrue, List};
ghost use Rattle.news_types.specs.declared.entry.Entry.{Entry};
ghost use Rattle.news_types.specs.Books.{Book};
ghost use Rattle.news_types.specs.Fits.{FitsStory, FitsIncoming};
ghost use Rattle.news_types.specs.FitsCommands.{FitsCommand};
ghost use Rattle.news_room.specs.Stands.{Stands, SomeBook};
ghost use Rattle.package_members.specs.Members.{make_package};
ghost use Rattle.desk_routes.specs.declared.ask.HttpAsk.TheVariants as asked;
ghost use Rattle.desk_routes.specs.Asking.{FitsAsk, FitsRoomAsk};
ghost use Rattle.desk_routes.specs.Rights.{right_of, may_ask};
ghost use Rattle.desk_routes.specs.Responses.{metrics_response};
ghost use Rattle.server_metrics.specs.Metrics.{metrics};
ghost use Rattle.feed_http.specs.Outcome.{contents_response, package_of, question_response, stop_behind};
ghost use Rattle.feed_http.specs.Turn.{AskTurn, AskingTurn, IsToldAs, ReadTurn, IsAnswered};

use crate::answers::HttpAnswer;
use crate::telling::{
    or_no_memory, tell_answer, tell_answered, tell_found, tell_kept, tell_packaged,
};
use archive_search::tell_archive;
use desk_lines::Described;
use desk_questions::{DeskTold, answer_desk};
use desk_routes::{
    Asking, Gate, HttpAsk, Notice, Refusal, Response, RoomAsk, allows, gate_of, notify, refuse,
    respond_denial, right_of, told_as, told_metrics,
};
use desk_views::DeskQuestion;
use news_io::Keeper;
use news_room::{Room, Ticked};
use news_types::{Command, Denial, Incoming, Memory, Name, Query, Text};
use package_rules::{Package, contents_object, publish_package};
use server_counts::Counts;
use server_metrics::metrics_text;
use std::alloc::Global;

/// Releases what waits, and then answers a question.
#[tactic(none)]
fn answer_question<K: Keeper>(
    alloc: Global,
    room: &mut Room<K>,
    now: u64,
    question: Query,
) -> Response
    requires { SomeBook K.keeper room.old }
    ensures { (more : List Entry) × ((b : Book) → Stands K.keeper room.old b → AskTurn K.keeper room.old room.new b more (asked.Query question) now result) }
{
    match room.tick(now) {
        Ticked::Kept { .. } | Ticked::Still => tell_answer(alloc, room.ask(&question)),
        Ticked::Fault => notify(alloc, Notice::Fault),
        Ticked::Full { .. } => notify(alloc, Notice::Full),
    }
}

/// Takes a user's request to the room.
#[tactic(none)]
fn answer_command<K: Keeper>(
    alloc: Global,
    room: &mut Room<K>,
    now: u64,
    caller: Name,
    number: u64,
    command: Command,
) -> Response
    requires stands { SomeBook K.keeper room.old }
    requires fits { FitsCommand command }
    ensures { (more : List Entry) × ((b : Book) → Stands K.keeper room.old b → AskTurn K.keeper room.old room.new b more (asked.Request caller number command) now result) }
{
    tell_answered(alloc, room.request(now, caller, number, command))
}

/// Takes a subscriber's receipt to the room.
#[tactic(none)]
fn answer_receipt<K: Keeper>(
    alloc: Global,
    room: &mut Room<K>,
    now: u64,
    subscriber: Name,
    n: u32,
) -> Response
    requires { SomeBook K.keeper room.old }
    ensures { (more : List Entry) × ((b : Book) → Stands K.keeper room.old b → AskTurn K.keeper room.old room.new b more (asked.Receipt subscriber n) now result) }
{
    tell_kept(alloc, room.receipt(now, subscriber, n))
}

/// Takes a provider's item to the room.
#[tactic(none)]
fn answer_ingest<K: Keeper>(
    alloc: Global,
    room: &mut Room<K>,
    now: u64,
    provider: Name,
    incoming: Incoming,
) -> Response
    requires stands { SomeBook K.keeper room.old }
    requires fits { FitsIncoming incoming }
    ensures { (more : List Entry) × ((b : Book) → Stands K.keeper room.old b → AskTurn K.keeper room.old room.new b more (asked.Ingest provider incoming) now result) }
{
    tell_answered(alloc, room.ingest(now, provider, incoming))
}

/// Releases what waits, and then searches a room, the archive.
#[tactic(none)]
fn answer_search<K: Keeper>(
    alloc: Global,
    archive: &mut Room<K>,
    now: u64,
    page: u32,
    query: &Text,
) -> Response
    requires { SomeBook K.keeper archive.old }
    ensures { (more : List Entry) × ((b : Book) → Stands K.keeper archive.old b → AskTurn K.keeper archive.old archive.new b more (asked.Archive page query.now) now result) }
{
    match archive.tick(now) {
        Ticked::Kept { .. } | Ticked::Still => {
            tell_found(alloc, tell_archive(alloc, archive, page, query.as_str()))
        }
        Ticked::Fault => notify(alloc, Notice::Fault),
        Ticked::Full { .. } => notify(alloc, Notice::Full),
    }
}

/// The response that tells what a publication of a room holds.
fn respond_contents<K: Keeper>(
    alloc: Global,
    room: &Room<K>,
    publication: u32,
) -> Result<Response, Memory>
    requires { SomeBook K.keeper room.now }
    ensures { IfOk result (λ response. (b : Book) → Stands K.keeper room.now b → response ≡ contents_response b.store publication b.list) }
{
    let held = contents_object(alloc, room, room.store(), publication)?;
    Ok(told_as(200, held))
}

/// Releases what waits, and then tells what a publication holds.
#[tactic(none)]
fn answer_contents<K: Keeper>(
    alloc: Global,
    newsroom: &mut Room<K>,
    now: u64,
    publication: u32,
) -> Response
    requires { SomeBook K.keeper newsroom.old }
    ensures { (more : List Entry) × ((b : Book) → Stands K.keeper newsroom.old b → AskTurn K.keeper newsroom.old newsroom.new b more (asked.Contents publication) now result) }
{
    match newsroom.tick(now) {
        Ticked::Kept { .. } | Ticked::Still => {
            or_no_memory(alloc, respond_contents(alloc, newsroom, publication))
        }
        Ticked::Fault => notify(alloc, Notice::Fault),
        Ticked::Full { .. } => notify(alloc, Notice::Full),
    }
}

/// The response that tells a desk what it asks of a room.
fn respond_desk<K: Keeper>(
    alloc: Global,
    room: &Room<K>,
    question: &DeskQuestion,
) -> Result<Response, Memory>
    requires { SomeBook K.keeper room.now }
    ensures { IfOk result (λ response. (b : Book) → Stands K.keeper room.now b → response ≡ question_response question.now b.list) }
{
    match answer_desk(alloc, room, question)? {
        DeskTold::Found(found) => Ok(told_as(200, found)),
        DeskTold::Unknown(thing) => respond_denial(alloc, &Denial::UnknownThing { thing }),
    }
}

/// Releases what waits, and then tells a desk what it asks.
#[tactic(none)]
fn answer_desk_question<K: Keeper>(
    alloc: Global,
    desks: &mut Room<K>,
    now: u64,
    question: &DeskQuestion,
) -> Response
    requires { SomeBook K.keeper desks.old }
    ensures { (more : List Entry) × ((b : Book) → Stands K.keeper desks.old b → AskTurn K.keeper desks.old desks.new b more (asked.Desk question.now) now result) }
{
    match desks.tick(now) {
        Ticked::Kept { .. } | Ticked::Still => {
            or_no_memory(alloc, respond_desk(alloc, desks, question))
        }
        Ticked::Fault => notify(alloc, Notice::Fault),
        Ticked::Full { .. } => notify(alloc, Notice::Full),
    }
}

/// The package that is described.
fn described_package(alloc: Global, described: Described) -> Result<Package, Memory>
    requires fits { FitsStory described.story }
    requires make { IsTrue (make_package described.members) }
    ensures { IfOk result (λ made. made ≡ package_of described) }
{
    let Described { story, members } = described;
    match Package::new(alloc, story, members.as_slice())? {
        Some(made) => Ok(made),
        None => unreachable!(),
    }
}

/// Takes a user's package to the room: behind a tick, to its readers.
#[tactic(none)]
fn answer_package<K: Keeper>(
    alloc: Global,
    room: &mut Room<K>,
    now: u64,
    caller: Name,
    number: u64,
    described: Described,
) -> Response
    requires stands { SomeBook K.keeper room.old }
    requires fits { FitsAsk (asked.Package caller number described) }
    ensures { (more : List Entry) × ((b : Book) → Stands K.keeper room.old b → AskTurn K.keeper room.old room.new b more (asked.Package caller number described) now result) }
{
    match described_package(alloc, described) {
        Ok(made) => tell_packaged(
            alloc,
            publish_package(alloc, room, now, caller, number, &made),
        ),
        Err(_) => notify(alloc, Notice::NoMemory),
    }
}

/// Takes to the room what is asked, whose caller has the right to ask it.
#[tactic(none)]
fn answer_ask<K: Keeper>(alloc: Global, room: &mut Room<K>, now: u64, ask: HttpAsk) -> Response
    requires stands { SomeBook K.keeper room.old }
    requires fits { FitsAsk ask }
    ensures { (more : List Entry) × ((b : Book) → Stands K.keeper room.old b → AskTurn K.keeper room.old room.new b more ask now result) }
{
    match ask {
        HttpAsk::Request {
            caller,
            number,
            command,
        } => answer_command(alloc, room, now, caller, number, command),
        HttpAsk::Query(question) => answer_question(alloc, room, now, question),
        HttpAsk::Receipt { subscriber, n } => answer_receipt(alloc, room, now, subscriber, n),
        HttpAsk::Ingest { provider, incoming } => {
            answer_ingest(alloc, room, now, provider, incoming)
        }
        HttpAsk::Archive { page, query } => answer_search(alloc, room, now, page, &query),
        HttpAsk::Package {
            caller,
            number,
            described,
        } => answer_package(alloc, room, now, caller, number, described),
        HttpAsk::Contents { publication } => answer_contents(alloc, room, now, publication),
        HttpAsk::Desk(question) => answer_desk_question(alloc, room, now, &question),
    }
}

/// Whether the caller has the right to ask this, by the list as it is.
#[tactic(none)]
fn may_ask<K: Keeper>(room: &Room<K>, asking: &Asking) -> Result<bool, Memory>
    requires { SomeBook K.keeper room.now }
    ensures { (b : Book) → Stands K.keeper room.now b → IfOk result (λ allowed. allowed ≡ may_ask b.list asking.now.caller (right_of asking.now.ask)) }
{
    match gate_of(asking.caller, right_of(&asking.ask)) {
        Gate::Known(allowed) => Ok(allowed),
        Gate::Asks(question) => Ok(allows(&room.ask(&question)?)),
    }
}

/// Takes to the room what a caller asks who has the right.
#[tactic(none)]
fn answer_allowed<K: Keeper>(
    alloc: Global,
    room: &mut Room<K>,
    now: u64,
    asking: Asking,
) -> Response
    requires stands { SomeBook K.keeper room.old }
    requires fits { FitsAsk asking.ask }
    ensures { (more : List Entry) × ((b : Book) → Stands K.keeper room.old b → AskTurn K.keeper room.old room.new b more asking.ask now result) }
{
    answer_ask(alloc, room, now, asking.ask)
}

/// Answers what is asked, where its caller has the right.
#[tactic(none)]
fn answer_asking<K: Keeper>(alloc: Global, room: &mut Room<K>, now: u64, asking: Asking) -> Response
    requires stands { SomeBook K.keeper room.old }
    requires fits { FitsAsk asking.ask }
    ensures { (more : List Entry) × ((b : Book) → Stands K.keeper room.old b → AskingTurn K.keeper room.old room.new b more asking now result) }
{
    match may_ask(room, &asking) {
        Ok(true) => answer_allowed(alloc, room, now, asking),
        Ok(false) => {
            drop(asking);
            notify(alloc, Notice::Forbidden)
        }
        Err(_) => {
            drop(asking);
            notify(alloc, Notice::NoMemory)
        }
    }
}

/// The response that tells the metrics of a room as it is, and what was counted.
fn respond_metrics<K: Keeper>(
    alloc: Global,
    room: &Room<K>,
    now: u64,
    counts: &Counts,
) -> Result<Response, Memory>
    requires { SomeBook K.keeper room.now }
    ensures { IfOk result (λ response. (b : Book) → Stands K.keeper room.now b → response ≡ metrics_response (metrics b.list now (K.keeper.used room.now.keeper) counts.now)) }
{
    Ok(told_metrics(metrics_text(alloc, room, now, counts)?))
}

/// Tells the metrics, without a tick.
#[tactic(none)]
fn answer_metrics<K: Keeper>(alloc: Global, room: &Room<K>, now: u64, counts: &Counts) -> Response
    requires { SomeBook K.keeper room.now }
    ensures { (b : Book) → Stands K.keeper room.now b → IsToldAs (metrics_response (metrics b.list now (K.keeper.used room.now.keeper) counts.now)) result }
{
    or_no_memory(alloc, respond_metrics(alloc, room, now, counts))
}

/// The response to what is asked, or to a refusal, where this was counted before it.
#[tactic(none)]
fn answer_read<K: Keeper>(
    alloc: Global,
    room: &mut Room<K>,
    now: u64,
    counts: &Counts,
    read: Result<RoomAsk, Refusal>,
) -> Response
    requires stands { SomeBook K.keeper room.old }
    requires fits { IfOk read FitsRoomAsk }
    ensures { (more : List Entry) × ((b : Book) → Stands K.keeper room.old b → ReadTurn K.keeper room.old room.new b more read now counts.now result) }
{
    match read {
        Ok(RoomAsk::By(asking)) => answer_asking(alloc, room, now, asking),
        Ok(RoomAsk::Metrics) => answer_metrics(alloc, room, now, counts),
        Err(refusal) => or_no_memory(alloc, refuse(alloc, refusal)),
    }
}

/// The place of the last stop, where there is one behind those before.
fn stop_behind(before: u64, now: u64) -> Option<u64>
    ensures { result ≡ stop_behind before now }
{
    if before < now { Some(now) } else { None }
}

/// Answers what is asked, or a refusal, in one turn of a room, at a reading of the clock, in seconds.
///
/// Whether the caller has the right is decided by the list as it is; what is refused keeps nothing. So are the metrics
/// told, of the list, of the bytes that its log uses and of what was counted before. A question, a search of the archive, what a
/// publication holds, a question of the desk and a package come behind a tick; where that is refused, so is what is asked.
/// Where there is no memory the status is 507, without a body; then none or all of the entries are kept that the request has, or
/// that of a package's tick.
#[tactic(none)]
pub fn answer_one<K: Keeper>(
    alloc: Global,
    room: &mut Room<K>,
    now: u64,
    counts: &Counts,
    read: Result<RoomAsk, Refusal>,
) -> HttpAnswer
    requires stands { SomeBook K.keeper room.old }
    requires fits { IfOk read FitsRoomAsk }
    ensures { IsAnswered K.keeper room.old now counts.now read result room.new }
{
    let before = room.last_stop();
    let response = answer_read(alloc, room, now, counts, read);
    HttpAnswer {
        response,
        stop: stop_behind(before, room.last_stop()),
    }
}
