// The whole run, with its status and the status line.
ghost use Rattle.std.specs.Prelude.{◌≤◌, ◌<◌, ◌^◌, [], ℕ, List, length};
ghost use Rattle.news_io.specs.Faults.{Rose};
ghost use Rattle.input_lines.specs.Lines.{ended, lines};
ghost use Rattle.line_run.specs.Status.{IsRun, CrashLeaves, IsComplete};

use crate::lines::LineMembers;
use crate::{Answering, Members, answer_members};
use news_io::{Sink, Source};
use run_status::{Status, tell_status};
use std::alloc::Global;

/// Answers the members of the input. The status is 0, or tells what ended the run.
pub fn run_members<S: Source, O: Sink, M: Members>(
    alloc: Global,
    input: &mut S,
    output: &mut O,
    members: &mut M,
    most: u64,
) -> u8
    requires stands { (shelf : M.Shelf) × ((h : List M.Entry) × (M.life shelf).stands members.old h) }
    requires most { most < 2 ^ 63 }
    requires begins { M.has_read members.old [] }
    ensures run { (shelf : M.Shelf) (h : List M.Entry) → (M.life shelf).stands members.old h → IsRun (M.meaning shelf) (M.life shelf) M.faults S.source O.sink (M.decided shelf) (M.all shelf) most input.old input.new members.old members.new output.old output.new h result }
    // Each crash moment of the call leaves what was kept before it and the first few of the entries that it kept, or these and one that was tried.
    ensures crash { (shelf : M.Shelf) (h : List M.Entry) → (M.life shelf).stands members.old h → CrashLeaves (M.life shelf) members.old members.new h }
    ensures complete { S.source.tells input.old → length (S.source.ahead input.old) ≤ most → (Rose (S.source.faults input.old) (S.source.faults input.new) → ⊥) → (Rose (O.sink.faults output.old) (O.sink.faults output.new) → ⊥)
        → (Rose (M.faults members.old) (M.faults members.new) → ⊥) → IsComplete result }
{
    match answer_members(alloc, input, output, members, most) {
        Ok(()) => Status::Done.number(),
        Err(why) => tell_status(output, Status::from(why)),
    }
}

/// Answers the lines of the input. The status is 0, or tells what ended the run.
pub fn run_lines<S: Source, O: Sink, A: Answering>(
    alloc: Global,
    input: &mut S,
    output: &mut O,
    machine: &mut A,
    longest: u32,
    most: u64,
) -> u8
    requires stands { (shelf : A.Shelf) × ((h : List A.Entry) × (A.life shelf).stands machine.old h) }
    requires most { most < 2 ^ 63 }
    ensures run { (shelf : A.Shelf) (h : List A.Entry) → (A.life shelf).stands machine.old h → IsRun (A.meaning shelf) (A.life shelf) A.faults S.source O.sink (ended longest) (lines longest) most input.old input.new machine.old machine.new output.old output.new h result }
    // Each crash moment of the call leaves what was kept before it and the first few of the entries that it kept, or these and one that was tried.
    ensures crash { (shelf : A.Shelf) (h : List A.Entry) → (A.life shelf).stands machine.old h → CrashLeaves (A.life shelf) machine.old machine.new h }
    ensures complete { S.source.tells input.old → length (S.source.ahead input.old) ≤ most → (Rose (S.source.faults input.old) (S.source.faults input.new) → ⊥) → (Rose (O.sink.faults output.old) (O.sink.faults output.new) → ⊥)
        → (Rose (A.faults machine.old) (A.faults machine.new) → ⊥) → IsComplete result }
{
    let mut line = Vec::new(alloc);
    let mut members = LineMembers {
        line: &mut line,
        longest,
        machine,
    };
    run_members(alloc, input, output, &mut members, most)
}
