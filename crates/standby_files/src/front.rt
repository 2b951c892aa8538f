// The record lines at the front of the bytes at hand are answered.
ghost use Rattle.std.specs.Prelude.{◌≡◌, ◌≤◌, ◌<◌, ◌+◌, ◌^◌, ◌++◌, length, drop, IfOk, OnOk, vec_len};
ghost use Rattle.frame_run.specs.Answers.{Causes};
ghost use Rattle.standby_files.specs.Answers.{Copied, Stands};
ghost use Rattle.standby_files.specs.Run.{Found};

use crate::answering::answer_record;
use frame_run::Ending;
use news_io::{Keeper, Sink};
use record_lines::{FirstRecord, first_record};
use room_standby::Standby;

/// Answers the whole record lines at the front of these bytes, which begin at this place of the input, and gives how many
/// bytes they have.
fn answer_whole<O: Sink, K: Keeper>(
    bytes: &[u8],
    begun: u64,
    output: &mut O,
    standby: &mut Standby<K>,
) -> Result<usize, Ending>
    requires { begun + length bytes.now < 2 ^ 64 }
    ensures within { IfOk result (λ n. n ≤ length bytes.now) }
    ensures found { (b : Copied) → Stands K.keeper standby.old b → Found K.keeper O.sink standby.old standby.new output.old output.new b bytes.now begun (λ n. drop n bytes.now) result }
    ensures causes { Causes (K.keeper.faults standby.old.keeper) (K.keeper.faults standby.new.keeper) (O.sink.faults output.old) (O.sink.faults output.new) result }
{
    let mut done = 0;
    'records: loop {
        let rest = &bytes[done..];
        match first_record(rest) {
            FirstRecord::Whole { size } => {
                if let Err(why) = answer_record(
                    &rest[..size],
                    begun + done as u64,
                    output,
                    standby,
                ) {
                    return Err(why);
                }
                done += size;
            }
            FirstRecord::Cut => return Ok(done),
            FirstRecord::Bad { at } => {
                return Err(Ending::BadFrame {
                    at: begun + (done + at) as u64,
                });
            }
        }
    }
}

/// Puts a piece of the input behind what has come of a record line, answers those that are whole then, and leaves what has
/// come of the next. What had come begins at this place of the input.
pub(crate) fn answer_piece<O: Sink, K: Keeper>(
    held: &mut Vec<u8>,
    piece: &[u8],
    begun: u64,
    output: &mut O,
    standby: &mut Standby<K>,
) -> Result<(), Ending>
    requires { begun + length held.old.items + length piece.now < 2 ^ 64 }
    ensures within { OnOk result (length held.new.items ≤ length held.old.items + length piece.now) }
    ensures found { (b : Copied) → Stands K.keeper standby.old b → Found K.keeper O.sink standby.old standby.new output.old output.new b (held.old.items ++ piece.now) begun (λ _. held.new.items) result }
    ensures causes { Causes (K.keeper.faults standby.old.keeper) (K.keeper.faults standby.new.keeper) (O.sink.faults output.old) (O.sink.faults output.new) result }
{
    held.extend_from_slice(piece)?;
    let done = answer_whole(held, begun, output, standby)?;
    if done == 0 {
        // A long record line stays where it is until it is whole.
        return Ok(());
    }
    let rest = held.split_off(done)?;
    *held = rest;
    Ok(())
}
