// The whole runs, with their status and the status line.
ghost use Rattle.std.specs.Prelude.{◌≤◌, ◌<◌, ◌^◌, ℕ, List, length};
ghost use Rattle.news_io.specs.Faults.{Rose};
ghost use Rattle.line_run.specs.Status.{IsRun, CrashLeaves, IsComplete};
ghost use Rattle.text7901.specs.Wire.{wire};
ghost use Rattle.wire_run.specs.Decided.{decided};
ghost use Rattle.wire_run.specs.Members.{of_found, of_item, one_item, no_item};

use crate::Ingesting;
use crate::item::ItemMembers;
use crate::wire::WireMembers;
use line_run::run_members;
use news_io::{Sink, Source};
use run_status::{Status, tell_status};
use std::alloc::Global;
use text7901::Reader;

/// Answers the stories and faults of a wire. The status is 0, or tells what ended the run.
pub fn run_wire<S: Source, O: Sink, A: Ingesting>(
    alloc: Global,
    input: &mut S,
    output: &mut O,
    desk: &mut A,
    most: u64,
) -> u8
    requires stands { (shelf : A.Shelf) × ((h : List A.Entry) × (A.life shelf).stands desk.old h) }
    requires most { most < 2 ^ 63 }
    ensures run { (shelf : A.Shelf) (h : List A.Entry) → (A.life shelf).stands desk.old h → IsRun (of_found (A.meaning shelf)) (A.life shelf) A.faults S.source O.sink decided wire most input.old input.new desk.old desk.new output.old output.new h result }
    // Each crash moment of the call leaves what was kept before it and the first few of the entries that it kept, or these and one that was tried.
    ensures crash { (shelf : A.Shelf) (h : List A.Entry) → (A.life shelf).stands desk.old h → CrashLeaves (A.life shelf) desk.old desk.new h }
    ensures complete { S.source.tells input.old → length (S.source.ahead input.old) ≤ most → (Rose (S.source.faults input.old) (S.source.faults input.new) → ⊥) → (Rose (O.sink.faults output.old) (O.sink.faults output.new) → ⊥)
        → (Rose (A.faults desk.old) (A.faults desk.new) → ⊥) → IsComplete result }
{
    let Ok(mut reader) = Reader::new(alloc) else {
        return tell_status(output, Status::Memory);
    };
    let mut members = WireMembers {
        alloc,
        reader: &mut reader,
        desk,
    };
    run_members(alloc, input, output, &mut members, most)
}

/// Answers the one item that the whole input is. The status is 0, or tells what ended the run.
pub fn run_item<S: Source, O: Sink, A: Ingesting>(
    alloc: Global,
    input: &mut S,
    output: &mut O,
    desk: &mut A,
    most: u64,
) -> u8
    requires stands { (shelf : A.Shelf) × ((h : List A.Entry) × (A.life shelf).stands desk.old h) }
    requires most { most < 2 ^ 63 }
    ensures run { (shelf : A.Shelf) (h : List A.Entry) → (A.life shelf).stands desk.old h → IsRun (of_item (A.meaning shelf)) (A.life shelf) A.faults S.source O.sink no_item one_item most input.old input.new desk.old desk.new output.old output.new h result }
    // Each crash moment of the call leaves what was kept before it and the first few of the entries that it kept, or these and one that was tried.
    ensures crash { (shelf : A.Shelf) (h : List A.Entry) → (A.life shelf).stands desk.old h → CrashLeaves (A.life shelf) desk.old desk.new h }
    ensures complete { S.source.tells input.old → length (S.source.ahead input.old) ≤ most → (Rose (S.source.faults input.old) (S.source.faults input.new) → ⊥) → (Rose (O.sink.faults output.old) (O.sink.faults output.new) → ⊥)
        → (Rose (A.faults desk.old) (A.faults desk.new) → ⊥) → IsComplete result }
{
    let mut kept = Vec::new(alloc);
    let mut members = ItemMembers {
        alloc,
        kept: &mut kept,
        desk,
    };
    run_members(alloc, input, output, &mut members, most)
}
