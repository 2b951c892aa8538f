// The lines of faults.
ghost use Rattle.std.specs.Prelude.{◌≡◌, Some, None, Err, IfOk, option_map};
ghost use Rattle.line_run.specs.declared.answering.Stopped.TheVariants as stopped;
ghost use Rattle.ninjs_text.specs.declared.fault.NinjsFault.TheVariants as fault_is;
ghost use Rattle.news_types.specs.Names.{Bytes};
ghost use Rattle.desk_answers.specs.Answers.{fault_bytes};
ghost use Rattle.wire_run.specs.Members.{IsText, what_word, fault_word, fault_property};

use desk_answers::fault_text;
use line_run::Stopped;
use news_types::{Bytes, Memory};
use ninjs_text::NinjsFault;
use std::alloc::Global;
use text7901::What;

/// The text that was written, if there was memory for it.
///
/// # Errors
///
/// Want of memory.
pub fn text_of(written: Result<Bytes, Memory>) -> Result<Vec<u8>, Stopped>
    ensures { (bytes : Bytes) → IfOk written (λ text. text ≡ bytes) → IsText bytes result }
{
    match written {
        Ok(text) => Ok(text.into_vec()),
        Err(Memory) => Err(Stopped::Memory),
    }
}

fn word_of_what(what: What) -> &'static str
    ensures { result.now ≡ what_word what }
{
    match what {
        What::NoHeader => "NoHeader",
        What::NoText => "NoText",
        What::NoEnd => "NoEnd",
        What::TooLong => "TooLong",
    }
}

fn word_of_fault(fault: NinjsFault) -> &'static str
    ensures { result.now ≡ fault_word fault }
{
    match fault {
        NinjsFault::NotJson => "NotJson",
        NinjsFault::NotObject => "NotObject",
        NinjsFault::NoUri => "NoUri",
        NinjsFault::WrongType { .. } => "WrongType",
        NinjsFault::TooLong { .. } => "TooLong",
        NinjsFault::Memory => "Memory",
    }
}

fn property_of_fault(fault: NinjsFault) -> Option<&'static str>
    ensures { option_map (λ text. text.now) result ≡ fault_property fault }
{
    match fault {
        NinjsFault::WrongType { property } | NinjsFault::TooLong { property } => {
            Some(property.name())
        }
        _ => None,
    }
}

/// The line of a fault of a wire, at this place.
pub(crate) fn wire_fault(alloc: Global, at: u64, what: What) -> Result<Vec<u8>, Stopped>
    ensures { IsText (fault_bytes (Some at) (what_word what) None) result }
{
    text_of(fault_text(alloc, Some(at), word_of_what(what), None))
}

/// The line of a fault of an item, which is no want of memory.
pub(crate) fn item_fault(alloc: Global, fault: NinjsFault) -> Result<Vec<u8>, Stopped>
    ensures text { IsText (fault_bytes None (fault_word fault) (fault_property fault)) result }
    ensures memory { fault ≡ fault_is.Memory → result ≡ Err stopped.Memory }
{
    match fault {
        NinjsFault::Memory => Err(Stopped::Memory),
        found => {
            let property = property_of_fault(found);
            text_of(fault_text(alloc, None, word_of_fault(found), property))
        }
    }
}
