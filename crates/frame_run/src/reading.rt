// The input is read in pieces, and its frames are answered as soon as they are whole.
ghost use Rattle.std.specs.Prelude.{◌≡◌, ◌<◌, ◌^◌, [], length, OnOk, IfErr};
ghost use Rattle.run_status.specs.Output.{AllPassed};
ghost use Rattle.feed_receiver.specs.Holds.{Received, Holds};
ghost use Rattle.frame_run.specs.Run.{Ran, Ends, NotByOutput};
ghost use Rattle.frame_run.specs.declared.ending.Ending.TheVariants.{BadFrame};

use crate::Ending;
use crate::front::answer_piece;
use feed_receiver::Receiver;
use line_run::{empty_piece, read_piece};
use news_io::{Keeper, Sink, Source};
use std::alloc::Global;

/// How an input of so many bytes ends, of which these stand behind its last whole frame.
fn ended(rest: &[u8], at: u64) -> Result<(), Ending>
    ensures ok { OnOk result (rest.now ≡ []) }
    ensures bad { IfErr result (λ why. (why ≡ BadFrame at) × (0 < length rest.now)) }
{
    match rest {
        [] => Ok(()),
        [_, ..] => Err(Ending::BadFrame { at }),
    }
}

/// Answers the frames of the input; at its end nothing may be left of it.
fn answer_input<S: Source, O: Sink, K: Keeper>(
    input: &mut S,
    output: &mut O,
    receiver: &mut Receiver<K>,
    held: &mut Vec<u8>,
    piece: &mut [u8],
    most: u64,
) -> Result<(), Ending>
    requires most { most < 2 ^ 63 }
    requires room { 0 < length piece.old }
    requires none { held.old.items ≡ [] }
    ensures ran { (b : Received) → Holds K.keeper receiver.old b → Ran K.keeper S.source O.sink most input.old input.new receiver.old receiver.new output.old output.new b result }
    ensures ends { Ends (S.source.faults input.old) (S.source.faults input.new) (K.keeper.faults receiver.old.keeper) (K.keeper.faults receiver.new.keeper) (O.sink.faults output.old) (O.sink.faults output.new) result }
{
    let mut left = most;
    'pieces: loop {
        let Ok(count) = read_piece(input, piece, left) else {
            return Err(Ending::Read);
        };
        if count == 0 {
            return ended(held, most - left);
        }
        let begun = most - left - held.len() as u64;
        if count as u64 > left {
            if let Err(why) = answer_piece(held, &piece[..left as usize], begun, output, receiver) {
                return Err(why);
            }
            return Err(Ending::TooLong);
        }
        if let Err(why) = answer_piece(held, &piece[..count], begun, output, receiver) {
            return Err(why);
        }
        left -= count as u64;
    }
}

/// Answers the frames of the input, in order. Each receipt passes on before the next frame is looked at, and what was
/// written before passes on before the first.
pub fn answer_frames<S: Source, O: Sink, K: Keeper>(
    alloc: Global,
    input: &mut S,
    output: &mut O,
    receiver: &mut Receiver<K>,
    most: u64,
) -> Result<(), Ending>
    requires { most < 2 ^ 63 }
    ensures ran { (b : Received) → Holds K.keeper receiver.old b → Ran K.keeper S.source O.sink most input.old input.new receiver.old receiver.new output.old output.new b result }
    ensures ends { Ends (S.source.faults input.old) (S.source.faults input.new) (K.keeper.faults receiver.old.keeper) (K.keeper.faults receiver.new.keeper) (O.sink.faults output.old) (O.sink.faults output.new) result }
    ensures passed { (b : Received) → Holds K.keeper receiver.old b → O.sink.tells output.old → NotByOutput result → AllPassed O.sink output.new }
{
    if let Err(_) = output.flush() {
        return Err(Ending::Write);
    }
    let mut piece = empty_piece(alloc)?;
    let mut held = Vec::new(alloc);
    answer_input(input, output, receiver, &mut held, &mut piece, most)
}
