//! Entries, each as a line.
ghost use Rattle.std.specs.Prelude.{◌≡◌, IfOk};
ghost use Rattle.told_entries.specs.Entries as said;
ghost use Rattle.told_entries.specs.Entries.{entry_line};
ghost use Rattle.told_entries.specs.Seen.{seen};

use crate::commands::request;
use crate::object::Told;
use crate::objects::story;
use crate::words::status_word;
use news_types::{Act, Bytes, Entry, Incoming, Memory, Name, Reply};
use std::alloc::{AllocError, Global};

/// One entry of a list as a line, without its end.
///
/// # Errors
///
/// There is no memory for it.
pub fn tell_entry(alloc: Global, number: u64, entry: &Entry, reply: &Reply) -> Result<Bytes, Memory>
    ensures { IfOk result (λ bytes. bytes ≡ entry_line number entry.now reply.now) }
{
    act(alloc, &entry.act, reply)?
        .number("entry", number)?
        .number("moment", entry.moment)?
        .written()
}

/// What an entry records.
#[tactic(auto, unfolding(crate::specs::Entries::act_members))]
fn act(alloc: Global, act: &Act, reply: &Reply) -> Result<Told, AllocError>
    ensures { IfOk result (λ told. seen told ≡ said.act_members act.now reply.now) }
{
    match act {
        Act::Advance => Told::new(alloc).text("act", "advance"),
        Act::Attempt { subscriber, k } => Told::new(alloc)
            .text("act", "attempt")?
            .number("k", *k as u64)?
            .text("subscriber", subscriber.as_str()),
        Act::Receipt { subscriber, n } => Told::new(alloc)
            .text("act", "receipt")?
            .number("n", *n as u64)?
            .text("subscriber", subscriber.as_str()),
        Act::Halt => Told::new(alloc).text("act", "halt"),
        Act::Ingest { provider, incoming } => { replied(ingest(alloc, provider, incoming)?, reply) }
        Act::Request {
            caller,
            number,
            command,
        } => asked(alloc, request(alloc, caller, *number, command)?, reply),
    }
}

/// A request that was accepted, with its reply.
fn asked(alloc: Global, request: Told, reply: &Reply) -> Result<Told, AllocError>
    ensures { IfOk result (λ told. seen told ≡ said.asked_members (seen request) reply.now) }
{
    let told = Told::new(alloc)
        .text("act", "request")?
        .inner("request", request)?;
    replied(told, reply)
}

/// What came in from a provider.
#[tactic(auto, unfolding(crate::specs::Entries::ingest_members))]
fn ingest(alloc: Global, provider: &Name, incoming: &Incoming) -> Result<Told, AllocError>
    ensures { IfOk result (λ told. seen told ≡ said.ingest_members provider.now incoming.now) }
{
    let story = story(alloc, &incoming.story)?;
    Told::new(alloc)
        .text("act", "ingest")?
        .number("created", incoming.created)?
        .number("embargo", incoming.embargo)?
        .text("identity", incoming.identity.as_str())?
        .text("provider", provider.as_str())?
        .text("status", status_word(incoming.status))?
        .inner("story", story)
}

/// The object with what the reply says of items and publications.
#[tactic(auto, unfolding(crate::specs::Entries::replied))]
fn replied(told: Told, reply: &Reply) -> Result<Told, AllocError>
    ensures { IfOk result (λ more. seen more ≡ said.replied reply.now (seen told)) }
{
    let told = told
        .unless_zero("item", reply.item as u64)?
        .unless_zero("publication", reply.publication as u64)?;
    released(told, reply)
}

/// The object with the release of a publication.
#[tactic(auto, unfolding(crate::specs::Entries::released))]
fn released(told: Told, reply: &Reply) -> Result<Told, AllocError>
    ensures { IfOk result (λ more. seen more ≡ said.released reply.now (seen told)) }
{
    if reply.publication == 0 {
        return Ok(told);
    }
    told.unless_zero("release", reply.release)
}
