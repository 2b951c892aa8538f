// One member of an input is answered.
ghost use Rattle.std.specs.Prelude.{◌≡◌, ◌∷◌, [], ℕ, List};
ghost use Rattle.line_run.specs.Turns.{Did, Causes};
ghost use Rattle.text7901.specs.Limits.{FitsFound};
ghost use Rattle.wire_run.specs.Members.{of_found, of_item, one_item};
ghost use Rattle.wire_run.specs.Passing.{IsPassedOn};

use crate::Ingesting;
use crate::words::{item_fault, wire_fault};
use line_run::{Ending, Stopped};
use news_io::{Sink, write_through};
use ninjs_text::read;
use std::alloc::Global;
use text7901::Found;

/// Writes an answer with a line feed, and passes it on. Without an answer nothing is written.
///
/// # Errors
///
/// What kept the answer from being made, want of memory, or the output's failure.
pub fn pass_on<O: Sink>(output: &mut O, answered: Result<Vec<u8>, Stopped>) -> Result<(), Ending>
    ensures { IsPassedOn O.sink output.old output.new answered result }
{
    let mut text = match answered {
        Ok(text) => text,
        Err(why) => return Err(Ending::from(why)),
    };
    if let Err(_) = text.push(b'\n') {
        return Err(Ending::Memory);
    }
    if let Err(_) = write_through(output, &text) {
        return Err(Ending::Write);
    }
    Ok(())
}

/// Answers a member of a wire, and passes its answer on.
pub(crate) fn answer_found<O: Sink, A: Ingesting>(
    alloc: Global,
    found: Found,
    output: &mut O,
    desk: &mut A,
) -> Result<(), Ending>
    requires stands { (shelf : A.Shelf) × ((h : List A.Entry) × (A.life shelf).stands desk.old h) }
    requires fits { FitsFound found }
    ensures did { (shelf : A.Shelf) (h : List A.Entry) → (A.life shelf).stands desk.old h → Did (of_found (A.meaning shelf)) (A.life shelf) O.sink desk.old desk.new output.old output.new h (found ∷ []) result }
    ensures causes { Causes (A.faults desk.old) (A.faults desk.new) (O.sink.faults output.old) (O.sink.faults output.new) result }
{
    match found {
        Found::Story(incoming) => pass_on(output, desk.ingest(incoming)),
        Found::Fault { at, what } => pass_on(output, wire_fault(alloc, at, what)),
    }
}

/// Answers the item that these bytes are, and passes its answer on.
pub(crate) fn answer_bytes<O: Sink, A: Ingesting>(
    alloc: Global,
    bytes: &[u8],
    output: &mut O,
    desk: &mut A,
) -> Result<(), Ending>
    requires stands { (shelf : A.Shelf) × ((h : List A.Entry) × (A.life shelf).stands desk.old h) }
    ensures did { (shelf : A.Shelf) (h : List A.Entry) → (A.life shelf).stands desk.old h → Did (of_item (A.meaning shelf)) (A.life shelf) O.sink desk.old desk.new output.old output.new h (one_item bytes.now) result }
    ensures causes { Causes (A.faults desk.old) (A.faults desk.new) (O.sink.faults output.old) (O.sink.faults output.new) result }
{
    match read(alloc, bytes) {
        Ok(incoming) => pass_on(output, desk.ingest(incoming)),
        Err(fault) => pass_on(output, item_fault(alloc, fault)),
    }
}
