// The lines of faults, as the command `ingest` writes them, without a line feed.
ghost use Rattle.std.specs.Prelude.{◌≡◌, Some, None, OnOk, IfOk, option_map};
ghost use Rattle.ninjs_text.specs.declared.fault.NinjsFault.TheVariants as fault_is;
ghost use Rattle.desk_answers.specs.Answers.{fault_bytes};
ghost use Rattle.wire_run.specs.Members as wires;
ghost use Rattle.agency_runs.specs.Members as agencies;

use agency_items::ItemFault;
use desk_answers::fault_text;
use news_types::{Bytes, Memory};
use ninjs_text::NinjsFault;
use std::alloc::Global;
use text7901::What;

fn word_of_what(what: What) -> &'static str
    ensures { result.now ≡ wires.what_word what }
{
    match what {
        What::NoHeader => "NoHeader",
        What::NoText => "NoText",
        What::NoEnd => "NoEnd",
        What::TooLong => "TooLong",
    }
}

/// The line of a fault of a wire, at this place.
pub(crate) fn text_fault(alloc: Global, at: u64, what: What) -> Result<Bytes, Memory>
    ensures { IfOk result (λ line. line ≡ fault_bytes (Some at) (wires.what_word what) None) }
{
    fault_text(alloc, Some(at), word_of_what(what), None)
}

fn word_of_item(fault: NinjsFault) -> &'static str
    ensures { result.now ≡ wires.fault_word fault }
{
    match fault {
        NinjsFault::NotJson => "NotJson",
        NinjsFault::NotObject => "NotObject",
        NinjsFault::NoUri => "NoUri",
        NinjsFault::WrongType { .. } => "WrongType",
        NinjsFault::TooLong { .. } => "TooLong",
        NinjsFault::Memory => "Memory",
    }
}

fn property_of_item(fault: NinjsFault) -> Option<&'static str>
    ensures { option_map (λ text. text.now) result ≡ wires.fault_property fault }
{
    match fault {
        NinjsFault::WrongType { property } | NinjsFault::TooLong { property } => {
            Some(property.name())
        }
        _ => None,
    }
}

/// The line of a fault of an item, which is no want of memory.
pub(crate) fn item_fault(alloc: Global, fault: NinjsFault) -> Result<Bytes, Memory>
    ensures line { IfOk result (λ line. line ≡ fault_bytes None (wires.fault_word fault) (wires.fault_property fault)) }
    ensures memory { OnOk result (fault ≡ fault_is.Memory → ⊥) }
{
    match fault {
        NinjsFault::Memory => Err(Memory),
        found => {
            let property = property_of_item(found);
            fault_text(alloc, None, word_of_item(found), property)
        }
    }
}

fn word_of_agency_item(fault: ItemFault) -> &'static str
    ensures { result.now ≡ agencies.item_word fault }
{
    match fault {
        ItemFault::NotJson => "NotJson",
        ItemFault::NotObject => "NotObject",
        ItemFault::NoUri => "NoUri",
        ItemFault::WrongKind => "WrongKind",
        ItemFault::WrongType { .. } => "WrongType",
        ItemFault::TooLong { .. } => "TooLong",
    }
}

fn property_of_agency_item(fault: ItemFault) -> Option<&'static str>
    ensures { option_map (λ text. text.now) result ≡ agencies.item_property fault }
{
    match fault {
        ItemFault::WrongType { property } | ItemFault::TooLong { property } => {
            Some(property.name())
        }
        _ => None,
    }
}

/// The line of a fault of an agency's item.
pub(crate) fn agency_item_fault(alloc: Global, fault: ItemFault) -> Result<Bytes, Memory>
    ensures { IfOk result (λ line. line ≡ fault_bytes None (agencies.item_word fault) (agencies.item_property fault)) }
{
    let property = property_of_agency_item(fault);
    fault_text(alloc, None, word_of_agency_item(fault), property)
}
