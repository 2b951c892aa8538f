// The whole runs, with their status and the status line.
ghost use Rattle.std.specs.Prelude.{◌≤◌, ◌<◌, ◌^◌, List, length};
ghost use Rattle.news_io.specs.Faults.{Rose};
ghost use Rattle.line_run.specs.Status.{IsRun, CrashLeaves, IsComplete};
ghost use Rattle.agency_wires.specs.Messages.{messages};
ghost use Rattle.agency_items.specs.Items.{items};
ghost use Rattle.agency_runs.specs.Decided.{decided};
ghost use Rattle.agency_runs.specs.Members.{of_read, no_item};

use crate::Receiving;
use crate::items::ItemMembers;
use crate::wire::MessageMembers;
use agency_wires::Reader;
use line_run::run_members;
use news_io::{Sink, Source};
use run_status::{Status, tell_status};
use std::alloc::Global;
use wire_run::Ingesting;

/// Answers the messages of a wire. The status is 0, or tells what ended the run.
pub fn run_agency_wire<S: Source, O: Sink, A: Receiving>(
    alloc: Global,
    input: &mut S,
    output: &mut O,
    desk: &mut A,
    most: u64,
) -> u8
    requires stands { (shelf : A.Shelf) × ((h : List A.Entry) × (A.life shelf).stands desk.old h) }
    requires most { most < 2 ^ 63 }
    ensures run { (shelf : A.Shelf) (h : List A.Entry) → (A.life shelf).stands desk.old h → IsRun (A.meaning shelf) (A.life shelf) A.faults S.source O.sink decided messages most input.old input.new desk.old desk.new output.old output.new h result }
    // Each crash moment of the call leaves what was kept before it and the first few of the entries that it kept, or these and one that was tried.
    ensures crash { (shelf : A.Shelf) (h : List A.Entry) → (A.life shelf).stands desk.old h → CrashLeaves (A.life shelf) desk.old desk.new h }
    ensures complete { S.source.tells input.old → length (S.source.ahead input.old) ≤ most → (Rose (S.source.faults input.old) (S.source.faults input.new) → ⊥) → (Rose (O.sink.faults output.old) (O.sink.faults output.new) → ⊥)
        → (Rose (A.faults desk.old) (A.faults desk.new) → ⊥) → IsComplete result }
{
    let Ok(mut reader) = Reader::new(alloc) else {
        return tell_status(output, Status::Memory);
    };
    let mut members = MessageMembers {
        reader: &mut reader,
        desk,
    };
    run_members(alloc, input, output, &mut members, most)
}

/// Answers the item that the whole input is, or the items of the list that it is, once its end was read. The status is 0,
/// or tells what ended the run.
pub fn run_agency_items<S: Source, O: Sink, A: Ingesting>(
    alloc: Global,
    input: &mut S,
    output: &mut O,
    desk: &mut A,
    most: u64,
) -> u8
    requires stands { (shelf : A.Shelf) × ((h : List A.Entry) × (A.life shelf).stands desk.old h) }
    requires most { most < 2 ^ 63 }
    ensures run { (shelf : A.Shelf) (h : List A.Entry) → (A.life shelf).stands desk.old h → IsRun (of_read (A.meaning shelf)) (A.life shelf) A.faults S.source O.sink no_item items most input.old input.new desk.old desk.new output.old output.new h result }
    // Each crash moment of the call leaves what was kept before it and the first few of the entries that it kept, or these and one that was tried.
    ensures crash { (shelf : A.Shelf) (h : List A.Entry) → (A.life shelf).stands desk.old h → CrashLeaves (A.life shelf) desk.old desk.new h }
    ensures complete { S.source.tells input.old → length (S.source.ahead input.old) ≤ most → (Rose (S.source.faults input.old) (S.source.faults input.new) → ⊥) → (Rose (O.sink.faults output.old) (O.sink.faults output.new) → ⊥)
        → (Rose (A.faults desk.old) (A.faults desk.new) → ⊥) → IsComplete result }
{
    let mut kept = Vec::new(alloc);
    let mut members = ItemMembers {
        alloc,
        kept: &mut kept,
        desk,
    };
    run_members(alloc, input, output, &mut members, most)
}
