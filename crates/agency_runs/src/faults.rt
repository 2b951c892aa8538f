// The lines of faults.
ghost use Rattle.std.specs.Prelude.{◌≡◌, ◌<◌, ◌+◌, ◌^◌, None, option_map};
ghost use Rattle.desk_answers.specs.Answers.{fault_bytes};
ghost use Rattle.wire_run.specs.Members.{IsText};
ghost use Rattle.agency_runs.specs.Members.{what_word, too_long_bytes, message_fault_bytes, item_word, item_property};

use agency_items::ItemFault;
use agency_wires::What;
use desk_answers::fault_text;
use line_run::Stopped;
use std::alloc::Global;
use wire_run::text_of;

fn word_of_what(what: What) -> &'static str
    ensures { result.now ≡ what_word what }
{
    match what {
        What::NotThisForm => "NotThisForm",
        What::NoHeader => "NoHeader",
        What::NoText => "NoText",
        What::NoEnd => "NoEnd",
        What::TooLong => "TooLong",
    }
}

fn word_of_item(fault: ItemFault) -> &'static str
    ensures { result.now ≡ item_word fault }
{
    match fault {
        ItemFault::NotJson => "NotJson",
        ItemFault::NotObject => "NotObject",
        ItemFault::NoUri => "NoUri",
        ItemFault::WrongKind => "WrongKind",
        ItemFault::WrongType { .. } => "WrongType",
        ItemFault::TooLong { .. } => "TooLong",
    }
}

fn property_of_item(fault: ItemFault) -> Option<&'static str>
    ensures { option_map (λ text. text.now) result ≡ item_property fault }
{
    match fault {
        ItemFault::WrongType { property } | ItemFault::TooLong { property } => {
            Some(property.name())
        }
        _ => None,
    }
}

/// The line of a message that is too long, without a line feed. Its place is that of the first byte for which the message
/// has no room, counted from 0 in the whole input.
///
/// # Errors
///
/// Want of memory.
pub fn too_long(alloc: Global, at: u64) -> Result<Vec<u8>, Stopped>
    ensures { IsText (too_long_bytes at) result }
{
    text_of(fault_text(alloc, Some(at), "TooLong", None))
}

/// The line of a fault of the message whose SOH stands at this place of the input, without a line feed. The fault's place
/// within the message counts from 0 behind the SOH, and the line tells its place in the whole input.
///
/// # Errors
///
/// Want of memory.
pub fn message_fault(alloc: Global, at: u64, within: u64, what: What) -> Result<Vec<u8>, Stopped>
    requires { at + 1 + within < 2 ^ 64 }
    ensures { IsText (message_fault_bytes at within what) result }
{
    let place = at + 1 + within;
    text_of(fault_text(alloc, Some(place), word_of_what(what), None))
}

/// The line of a fault of an item.
pub(crate) fn item_fault(alloc: Global, fault: ItemFault) -> Result<Vec<u8>, Stopped>
    ensures { IsText (fault_bytes None (item_word fault) (item_property fault)) result }
{
    let property = property_of_item(fault);
    text_of(fault_text(alloc, None, word_of_item(fault), property))
}
