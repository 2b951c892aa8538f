// The whole run, with its status and the status line.
ghost use Rattle.std.specs.Prelude.{◌≡◌, ◌≤◌, ◌<◌, ◌^◌, true, List, [], length};
ghost use Rattle.news_types.specs.Frames.{Frame};
ghost use Rattle.news_io.specs.Faults.{Rose};
ghost use Rattle.feed_receiver.specs.Holds.{Received, Holds};
ghost use Rattle.frame_run.specs.Input.{AreFrames};
ghost use Rattle.frame_run.specs.Status.{IsRun, CrashLeaves, IsComplete};

use crate::answer_frames;
use feed_receiver::Receiver;
use news_io::{Keeper, Sink, Source};
use run_status::{Status, tell_status};
use std::alloc::Global;

/// Takes the frames of the input in turn, writes a receipt line for each, and gives the status: 0, or what ended the run.
pub fn run_frames<S: Source, O: Sink, K: Keeper>(
    alloc: Global,
    input: &mut S,
    output: &mut O,
    receiver: &mut Receiver<K>,
    most: u64,
) -> u8
    requires { most < 2 ^ 63 }
    ensures run { (b : Received) → Holds K.keeper receiver.old b → IsRun K.keeper S.source O.sink most input.old input.new receiver.old receiver.new output.old output.new b result }
    // Each crash moment of the call leaves what was held before it and the first few of the frames that it kept, or these and one that was tried.
    ensures crash { (b : Received) → Holds K.keeper receiver.old b → b.told ≡ true → CrashLeaves K.keeper receiver.old receiver.new b }
    ensures complete { (b : Received) → Holds K.keeper receiver.old b → S.source.tells input.old → length (S.source.ahead input.old) ≤ most → (frames : List Frame) → AreFrames (S.source.ahead input.old) frames []
        → (Rose (S.source.faults input.old) (S.source.faults input.new) → ⊥) → (Rose (O.sink.faults output.old) (O.sink.faults output.new) → ⊥)
        → (Rose (K.keeper.faults receiver.old.keeper) (K.keeper.faults receiver.new.keeper) → ⊥) → IsComplete result }
{
    match answer_frames(alloc, input, output, receiver, most) {
        Ok(()) => Status::Done.number(),
        Err(why) => tell_status(output, Status::from(why)),
    }
}
