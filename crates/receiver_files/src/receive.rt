//! The command that a subscriber runs.
ghost use Rattle.std.specs.Prelude.{List};
ghost use Rattle.news_types.specs.Frames.{Frame};
ghost use Rattle.receiver_files.specs.Log.{Gives};
ghost use Rattle.receiver_files.specs.Receive.{IsReceive, IsServed};

use crate::{Refusal, open_receiver};
use frame_run::run_frames;
use news_io::{Disk, Keeper, Sink, Source};
use news_types::Name;
use run_status::{Status, tell_status};
use std::alloc::Global;

/// The most bytes of an input.
const LONGEST_INPUT: u64 = 4294967296;

/// Opens a file as the log of the receiver of this name, takes the frames of the input in turn and writes a receipt line for
/// each. It gives the status, and the file back. A file that does not serve is told by its status, and nothing is read then.
#[tactic(none)]
pub fn receive_frames<S: Source, O: Sink, D: Disk>(
    alloc: Global,
    input: &mut S,
    output: &mut O,
    log: D,
    name: Name,
) -> (u8, D)
    ensures received { IsReceive D.disk S.source O.sink name log result.1 input.old input.new output.old output.new result.0 }
    // A file that is empty or holds the receiver's frames is never told to be another's or damaged, and a failed disk is told only where it has failed.
    ensures serves { D.disk.tells log → (frames : List Frame) → Gives name (D.disk.seen log) frames → IsServed (D.disk.faults log) (D.disk.faults result.1) result.0 }
{
    match open_receiver(alloc, log, name) {
        Ok(mut receiver) => {
            let status = run_frames(alloc, input, output, &mut receiver, LONGEST_INPUT);
            (status, receiver.into_keeper().into_disk())
        }
        Err((log, refusal)) => (tell_status(output, Status::from(refusal)), log),
    }
}
