//! The last request of each caller.
ghost use Rattle.std.specs.Prelude.{◌≡◌, ◌<◌, ◌+◌, ◌^◌, ℕ, Option, [], Some, OnOk, if◌then◌else◌, option_map};
ghost use Rattle.std.specs.Option.{option_copied};
ghost use Rattle.std.specs.HashMap.{get, spare};
ghost use Rattle.news_types.specs.declared.entry.Reply.{Reply};
ghost use Rattle.news_types.specs.Names.{Bytes, same};
ghost use Rattle.news_types.specs.History.{Asked, last, number_of};
ghost use Rattle.news_types.specs.Outcome.{last_reply};
ghost use Rattle.news_types.specs.Denial.{turn_denial, is_repeat, is_last_command};
ghost use Rattle.newsroom.specs.Callers.{asked_of, reply_of, Remembers};

use news_types::{Command, Denial, Name, Reply};
use std::alloc::{AllocError, Global};
use std::collections::HashMap;

/// A caller's last request, and the reply that it was given.
#[derive(Drop)]
pub(crate) struct Last {
    pub(crate) number: u64,
    pub(crate) command: Command,
    pub(crate) reply: Reply,
}

/// The number of the last request, or 0.
fn last_number(before: Option<&Last>) -> u64
    ensures { result ≡ number_of (option_map asked_of (option_copied before.entry)) }
{
    match before {
        None => 0,
        Some(last) => last.number,
    }
}

/// Whether the last request had this command.
fn is_last(before: Option<&Last>, command: &Command) -> bool
    ensures { result ≡ is_last_command (option_map asked_of (option_copied before.entry)) command.now }
{
    match before {
        None => false,
        Some(last) => last.command == *command,
    }
}

/// The denial of a number that is out of turn, or was used for another command.
pub(crate) fn turn_denied(before: Option<&Last>, number: u64, command: &Command) -> Option<Denial>
    requires { number_of (option_map asked_of (option_copied before)) + 1 < 2 ^ 64 }
    ensures { result ≡ turn_denial (option_map asked_of (option_copied before.entry)) number command.now }
{
    let kept = last_number(before);
    if !(0 < number && (number == kept || number == kept + 1)) {
        return Some(Denial::OutOfTurn { expected: kept + 1 });
    }
    if number == kept && !is_last(before, command) {
        return Some(Denial::NumberUsed { kept });
    }
    None
}

/// Whether it is the caller's last request once more.
pub(crate) fn repeats(before: Option<&Last>, number: u64, command: &Command) -> bool
    ensures { result ≡ is_repeat (option_map asked_of (option_copied before.entry)) number command.now }
{
    0 < number && number == last_number(before) && is_last(before, command)
}

/// The reply that the last request was given, or that of none.
pub(crate) fn replied(before: Option<&Last>) -> Reply
    ensures { result ≡ reply_of (option_copied before.entry) }
{
    match before {
        None => Reply {
            entry: 0,
            item: 0,
            publication: 0,
            release: 0,
        },
        Some(last) => last.reply,
    }
}

/// No caller's request.
pub(crate) fn none(alloc: Global) -> HashMap<Name, Last>
    ensures { Remembers result (last []) (last_reply []) }
{
    HashMap::new(alloc)
}

/// Takes the memory for one more caller.
pub(crate) fn reserve_one(callers: &mut HashMap<Name, Last>) -> Result<(), AllocError>
    ensures same { (name : Bytes) → get same callers.new name ≡ get same callers.old name }
    ensures ok { OnOk result (0 < spare callers.new) }
{
    callers.reserve(1)
}

/// Writes a caller's last request.
fn put(callers: &mut HashMap<Name, Last>, name: Name, last: Last)
    requires { 0 < spare callers.old }
    ensures { (other : Bytes) → get same callers.new other ≡ (if same name other then Some last else get same callers.old other) }
{
    drop(callers.insert(name, last));
}

/// Remembers a caller's last request, where there is room for one more.
pub(crate) fn remember(callers: &mut HashMap<Name, Last>, name: Name, last: Last)
    requires { 0 < spare callers.old }
    ensures { (asked : Bytes → Option Asked) (replied : Bytes → Reply) → Remembers callers.old asked replied
        → Remembers callers.new (λ other. if same name other then Some (asked_of last) else asked other) (λ other. if same name other then last.reply else replied other) }
{
    put(callers, name, last);
}
