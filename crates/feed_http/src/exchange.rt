//! One request of a connection, and its answer.
ghost use Rattle.std.specs.Prelude.{◌≡◌, IfOk, OnOk};
ghost use Rattle.news_io.specs.Faults.{Counts};
ghost use Rattle.http_wire.specs.Writing.{Writes};
ghost use Rattle.feed_http.specs.Exchanges.{response_bytes};
ghost use Rattle.desk_routes.specs.Asking.{FitsRoomAsk};
ghost use Rattle.feed_http.specs.Serving.{TakesTurn, AnswersRequest, IsTurned, IsRefused, CountsRefused};

use crate::answers::{Answers, HttpAnswer};
use crate::ended::Ended;
use crate::wire::answer_wire;
use desk_routes::{HttpAsked, Notice, Refusal, Response, RoomAsk, Routes, notify};
use http_wire::{HttpRequest, write_response};
use news_io::{Clock, Failed, Sink};
use std::alloc::Global;

/// What an exchange came to.
#[derive(Clone, Copy)]
pub(crate) struct Turned {
    /// The place of the stop that its turn kept, if it kept one.
    pub(crate) stop: Option<u64>,
    /// The request closes the connection.
    pub(crate) close: bool,
    /// Whether its answer was written and passed on.
    pub(crate) wrote: Result<(), Failed>,
}

/// Writes a response and passes it on, or writes the first of its bytes where the sink fails.
pub(crate) fn respond<O: Sink>(sink: &mut O, response: &Response) -> Result<(), Failed>
    ensures wrote { O.sink.tells sink.old → Writes O.sink sink.old sink.new (response_bytes response.now) result }
    ensures passed { O.sink.tells sink.old → OnOk result (O.sink.passed sink.new ≡ O.sink.taken sink.new) }
    ensures told { O.sink.tells sink.old → O.sink.tells sink.new }
    ensures count { Counts (O.sink.faults sink.old) (O.sink.faults sink.new) result }
{
    let body = response.body.as_slice();
    match write_response(sink, response.status, response.media.text(), body) {
        Ok(()) => sink.flush(),
        Err(failed) => Err(failed),
    }
}

/// Answers what is asked, or a refusal, in one turn, by one reading of the clock.
fn answer_in_turn<A: Answers, C: Clock>(
    alloc: Global,
    room: &mut A,
    clock: &mut C,
    read: Result<RoomAsk, Refusal>,
) -> HttpAnswer
    requires ready { A.is_ready room.old }
    requires fits { IfOk read FitsRoomAsk }
    ensures taken { TakesTurn A.turn C.clock room.old room.new clock.old clock.new read result }
    ensures ready { A.is_ready room.new }
{
    let now = clock.now();
    room.answer(alloc, now, read)
}

/// Answers a request: in one turn, or, where it is a wire, each story in a turn of its own.
fn answer_request<A: Answers, C: Clock>(
    routes: &Routes,
    room: &mut A,
    clock: &mut C,
    request: &HttpRequest,
) -> HttpAnswer
    requires { A.is_ready room.old }
    ensures answered { AnswersRequest A.turn C.clock room.old room.new clock.old clock.new request.now result }
    ensures ready { A.is_ready room.new }
{
    let alloc = routes.alloc();
    match routes.read_ask(request) {
        Ok(HttpAsked::Room(ask)) => answer_in_turn(alloc, room, clock, Ok(ask)),
        Ok(HttpAsked::Wire(wire)) => answer_wire(alloc, room, clock, wire),
        Err(refusal) => answer_in_turn(alloc, room, clock, Err(refusal)),
    }
}

/// Answers a request, by readings of the clock, and writes the answer.
pub(crate) fn exchange<A: Answers, C: Clock, O: Sink>(
    routes: &Routes,
    room: &mut A,
    clock: &mut C,
    sink: &mut O,
    request: HttpRequest,
) -> Turned
    requires { A.is_ready room.old }
    ensures turned { IsTurned A.turn C.clock O.sink room.old room.new clock.old clock.new sink.old sink.new request result }
    ensures ready { A.is_ready room.new }
    ensures count { Counts (O.sink.faults sink.old) (O.sink.faults sink.new) result.wrote }
{
    let answer = answer_request(routes, room, clock, &request);
    room.count(answer.response.status);
    Turned {
        wrote: respond(sink, &answer.response),
        stop: answer.stop,
        close: request.close,
    }
}

/// Writes the answer of an ending, and tells how the connection ended.
pub(crate) fn refuse<O: Sink>(routes: &Routes, sink: &mut O, notice: Notice, why: Ended) -> Ended
    ensures refused { IsRefused O.sink sink.old sink.new notice why result }
    ensures count { CountsRefused (O.sink.faults sink.old) (O.sink.faults sink.new) why result }
{
    let response = notify(routes.alloc(), notice);
    match respond(sink, &response) {
        Ok(()) => why,
        Err(_) => Ended::WriteFault,
    }
}
