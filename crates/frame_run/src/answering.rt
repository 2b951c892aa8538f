// One frame is answered.
ghost use Rattle.std.specs.Prelude.{◌≡◌};
ghost use Rattle.news_types.specs.Frames.{Frame};
ghost use Rattle.feed_receiver.specs.Holds.{Received, Holds};
ghost use Rattle.feed_receiver.specs.Takes.{AreFrame};
ghost use Rattle.frame_run.specs.Answers.{outcome as outcome_of, Answered, Causes};

use crate::Ending;
use feed_receiver::{Receiver, Taken};
use news_io::{Keeper, Sink, write_through};

/// What ends the run at a frame of which the receiver makes this; each other one is answered by a receipt.
fn outcome(taken: Taken) -> Result<(), Ending>
    ensures { result ≡ outcome_of taken }
{
    match taken {
        Taken::Fault => Err(Ending::Store),
        Taken::Full { .. } => Err(Ending::Full),
        Taken::Memory => Err(Ending::Memory),
        // A whole frame is never a bad one.
        Taken::BadFrame { .. }
        | Taken::NotMine
        | Taken::Known { .. }
        | Taken::Ahead { .. }
        | Taken::Accepted { .. } => Ok(()),
    }
}

/// Gives a frame to the receiver, writes the receipt of what it then holds, and passes it on.
#[tactic(none)]
pub(crate) fn answer_frame<O: Sink, K: Keeper>(
    frame: &[u8],
    output: &mut O,
    receiver: &mut Receiver<K>,
) -> Result<(), Ending>
    ensures did { (b : Received) → Holds K.keeper receiver.old b → (f : Frame) → AreFrame f frame.now → Answered K.keeper O.sink receiver.old receiver.new output.old output.new b f result }
    ensures causes { Causes (K.keeper.faults receiver.old.keeper) (K.keeper.faults receiver.new.keeper) (O.sink.faults output.old) (O.sink.faults output.new) result }
{
    let taken = receiver.take(frame);
    if let Err(why) = outcome(taken) {
        return Err(why);
    }
    if let Err(_) = write_through(output, receiver.receipt().as_slice()) {
        return Err(Ending::Write);
    }
    Ok(())
}
