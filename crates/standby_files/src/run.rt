// The whole run over record lines, with its status and the status line.
ghost use Rattle.std.specs.Prelude.{◌≡◌, ◌≤◌, ◌<◌, ◌^◌, true, List, [], length};
ghost use Rattle.news_io.specs.Faults.{Rose};
ghost use Rattle.record_lines.specs.Spelling.{Numbered};
ghost use Rattle.frame_run.specs.Status.{IsComplete};
ghost use Rattle.standby_files.specs.Answers.{Copied, Stands};
ghost use Rattle.standby_files.specs.Input.{AreRecords};
ghost use Rattle.standby_files.specs.Status.{IsRun, CrashLeaves, AllEntries};

use crate::reading::answer_records;
use news_io::{Keeper, Sink, Source};
use room_standby::Standby;
use run_status::{Status, tell_status};
use std::alloc::Global;

/// Takes the record lines of the input in turn, writes a KEPT line for each, and gives the status: 0, or what ended the run.
///
/// Status 13 is told with the place of the first byte that does not go on with a record line, or, in the next record, with
/// no entry.
pub fn run_records<S: Source, O: Sink, K: Keeper>(
    alloc: Global,
    input: &mut S,
    output: &mut O,
    standby: &mut Standby<K>,
    most: u64,
) -> u8
    requires { most < 2 ^ 63 }
    ensures run { (b : Copied) → Stands K.keeper standby.old b → IsRun K.keeper S.source O.sink most input.old input.new standby.old standby.new output.old output.new b result }
    // Each crash moment of the call leaves what was held before it and the first few of the records that it kept, or these and one that was tried.
    ensures crash { (b : Copied) → Stands K.keeper standby.old b → b.told ≡ true → CrashLeaves K.keeper standby.old standby.new b }
    ensures complete { (b : Copied) → Stands K.keeper standby.old b → S.source.tells input.old → length (S.source.ahead input.old) ≤ most → (records : List Numbered) → AreRecords (S.source.ahead input.old) records [] → AllEntries records
        → (Rose (S.source.faults input.old) (S.source.faults input.new) → ⊥) → (Rose (O.sink.faults output.old) (O.sink.faults output.new) → ⊥)
        → (Rose (K.keeper.faults standby.old.keeper) (K.keeper.faults standby.new.keeper) → ⊥) → IsComplete result }
{
    match answer_records(alloc, input, output, standby, most) {
        Ok(()) => Status::Done.number(),
        Err(why) => tell_status(output, Status::from(why)),
    }
}
