//! The responses to what a room answers.
ghost use Rattle.std.specs.Prelude.{◌≡◌, IfOk};
ghost use Rattle.news_room.specs.Said.{said, said_kept, said_told};
ghost use Rattle.desk_routes.specs.declared.response.Response.{Response};
ghost use Rattle.feed_http.specs.Outcome.{no_readers_response};
ghost use Rattle.feed_http.specs.Turn.{IsTold, IsToldAs, IsFound, IsPackaged};

use archive_search::Told;
use desk_routes::{
    Notice, Response, notify, respond_answer, respond_denial, respond_reply, told_as,
};
use news_room::{Handled, Kept};
use news_types::{Answer, Memory};
use package_rules::{Packaged, no_readers_text};
use std::alloc::Global;

/// The response, or where there was no memory for it the one that tells so.
pub(crate) fn or_no_memory(alloc: Global, found: Result<Response, Memory>) -> Response
    ensures { (wanted : Response) → IfOk found (λ response. response ≡ wanted) → IsToldAs wanted result }
{
    match found {
        Ok(response) => response,
        Err(_) => notify(alloc, Notice::NoMemory),
    }
}

/// The response to what a request or an ingest is answered.
pub(crate) fn tell_answered(alloc: Global, answered: Handled) -> Response
    ensures { IsTold (said answered) result }
{
    match answered {
        Handled::Done(reply) => or_no_memory(alloc, respond_reply(alloc, &reply, false)),
        Handled::Repeat(reply) => or_no_memory(alloc, respond_reply(alloc, &reply, true)),
        Handled::Denied(denial) => or_no_memory(alloc, respond_denial(alloc, &denial)),
        Handled::Fault => notify(alloc, Notice::Fault),
        Handled::Full { .. } => notify(alloc, Notice::Full),
        Handled::Memory => notify(alloc, Notice::NoMemory),
    }
}

/// The response to what a receipt is answered.
pub(crate) fn tell_kept(alloc: Global, kept: Kept) -> Response
    ensures { IsTold (said_kept kept) result }
{
    match kept {
        Kept::Done(reply) => or_no_memory(alloc, respond_reply(alloc, &reply, false)),
        Kept::Denied(denial) => or_no_memory(alloc, respond_denial(alloc, &denial)),
        Kept::Fault => notify(alloc, Notice::Fault),
        Kept::Full { .. } => notify(alloc, Notice::Full),
    }
}

/// The response to what a question is answered.
pub(crate) fn tell_answer(alloc: Global, told: Result<Answer, Memory>) -> Response
    ensures { IsTold (said_told told) result }
{
    match told {
        Ok(answer) => or_no_memory(alloc, respond_answer(alloc, answer)),
        Err(_) => notify(alloc, Notice::NoMemory),
    }
}

/// The response to what a query of the archive is answered.
pub(crate) fn tell_found(alloc: Global, found: Result<Told, Memory>) -> Response
    ensures { IsFound found result }
{
    match found {
        Ok(Told::Found(text)) => told_as(200, text),
        Ok(Told::Refused(text)) => told_as(400, text),
        Err(_) => notify(alloc, Notice::NoMemory),
    }
}

/// The response to what the request to publish a package is answered.
pub(crate) fn tell_packaged(alloc: Global, packaged: Packaged) -> Response
    ensures { IsPackaged packaged result }
{
    match packaged {
        Packaged::Done(reply) => or_no_memory(alloc, respond_reply(alloc, &reply, false)),
        Packaged::Repeat(reply) => or_no_memory(alloc, respond_reply(alloc, &reply, true)),
        Packaged::Denied(denial) => or_no_memory(alloc, respond_denial(alloc, &denial)),
        Packaged::NoReaders { front } => or_no_memory(alloc, respond_no_readers(alloc, front)),
        Packaged::Fault => notify(alloc, Notice::Fault),
        Packaged::Full { .. } => notify(alloc, Notice::Full),
        Packaged::Memory => notify(alloc, Notice::NoMemory),
    }
}

/// The response to a package of which nobody has every member, at a list of so many entries.
fn respond_no_readers(alloc: Global, front: u64) -> Result<Response, Memory>
    ensures { IfOk result (λ response. response ≡ no_readers_response front) }
{
    Ok(told_as(409, no_readers_text(alloc, front)?))
}
