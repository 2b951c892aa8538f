// The frames at the front of the bytes at hand are answered.
ghost use Rattle.std.specs.Prelude.{◌≡◌, ◌≤◌, ◌<◌, ◌+◌, ◌^◌, ◌++◌, length, drop, IfOk, OnOk, vec_len};
ghost use Rattle.feed_receiver.specs.Holds.{Received, Holds};
ghost use Rattle.frame_run.specs.Answers.{Causes};
ghost use Rattle.frame_run.specs.Run.{Found};

use crate::Ending;
use crate::answering::answer_frame;
use feed_receiver::{FirstFrame, Receiver, first_frame};
use news_io::{Keeper, Sink};

/// Answers the whole frames at the front of these bytes, which begin at this place of the input, and gives how many bytes
/// they have.
fn answer_whole<O: Sink, K: Keeper>(
    bytes: &[u8],
    begun: u64,
    output: &mut O,
    receiver: &mut Receiver<K>,
) -> Result<usize, Ending>
    requires { begun + length bytes.now < 2 ^ 64 }
    ensures within { IfOk result (λ n. n ≤ length bytes.now) }
    ensures found { (b : Received) → Holds K.keeper receiver.old b → Found K.keeper O.sink receiver.old receiver.new output.old output.new b bytes.now begun (λ n. drop n bytes.now) result }
    ensures causes { Causes (K.keeper.faults receiver.old.keeper) (K.keeper.faults receiver.new.keeper) (O.sink.faults output.old) (O.sink.faults output.new) result }
{
    let mut done = 0;
    'frames: loop {
        let rest = &bytes[done..];
        match first_frame(rest) {
            FirstFrame::Whole { size } => {
                if let Err(why) = answer_frame(&rest[..size], output, receiver) {
                    return Err(why);
                }
                done += size;
            }
            FirstFrame::Cut => return Ok(done),
            FirstFrame::Bad { at } => {
                return Err(Ending::BadFrame {
                    at: begun + (done + at) as u64,
                });
            }
        }
    }
}

/// Puts a piece of the input behind what has come of a frame, answers the frames that are whole then, and leaves what has come
/// of the next. What had come begins at this place of the input.
pub(crate) fn answer_piece<O: Sink, K: Keeper>(
    held: &mut Vec<u8>,
    piece: &[u8],
    begun: u64,
    output: &mut O,
    receiver: &mut Receiver<K>,
) -> Result<(), Ending>
    requires { begun + length held.old.items + length piece.now < 2 ^ 64 }
    ensures within { OnOk result (length held.new.items ≤ length held.old.items + length piece.now) }
    ensures found { (b : Received) → Holds K.keeper receiver.old b → Found K.keeper O.sink receiver.old receiver.new output.old output.new b (held.old.items ++ piece.now) begun (λ _. held.new.items) result }
    ensures causes { Causes (K.keeper.faults receiver.old.keeper) (K.keeper.faults receiver.new.keeper) (O.sink.faults output.old) (O.sink.faults output.new) result }
{
    held.extend_from_slice(piece)?;
    let done = answer_whole(held, begun, output, receiver)?;
    if done == 0 {
        // A long frame stays where it is until it is whole.
        return Ok(());
    }
    let rest = held.split_off(done)?;
    *held = rest;
    Ok(())
}
