// The input is read in pieces, and its record lines are answered as soon as they are whole.
ghost use Rattle.std.specs.Prelude.{◌≡◌, ◌<◌, ◌^◌, [], length, OnOk, IfErr};
ghost use Rattle.run_status.specs.Output.{AllPassed};
ghost use Rattle.frame_run.specs.Run.{Ends, NotByOutput};
ghost use Rattle.frame_run.specs.declared.ending.Ending.TheVariants.{BadFrame};
ghost use Rattle.standby_files.specs.Answers.{Copied, Stands};
ghost use Rattle.standby_files.specs.Run.{Ran};

use crate::front::answer_piece;
use frame_run::Ending;
use line_run::{empty_piece, read_piece};
use news_io::{Keeper, Sink, Source};
use room_standby::Standby;
use std::alloc::Global;

/// How an input of so many bytes ends, of which these stand behind its last whole record line.
fn ended(rest: &[u8], at: u64) -> Result<(), Ending>
    ensures ok { OnOk result (rest.now ≡ []) }
    ensures bad { IfErr result (λ why. (why ≡ BadFrame at) × (0 < length rest.now)) }
{
    match rest {
        [] => Ok(()),
        [_, ..] => Err(Ending::BadFrame { at }),
    }
}

/// Answers the record lines of the input; at its end nothing may be left of it.
fn answer_input<S: Source, O: Sink, K: Keeper>(
    input: &mut S,
    output: &mut O,
    standby: &mut Standby<K>,
    held: &mut Vec<u8>,
    piece: &mut [u8],
    most: u64,
) -> Result<(), Ending>
    requires most { most < 2 ^ 63 }
    requires room { 0 < length piece.old }
    requires none { held.old.items ≡ [] }
    ensures ran { (b : Copied) → Stands K.keeper standby.old b → Ran K.keeper S.source O.sink most input.old input.new standby.old standby.new output.old output.new b result }
    ensures ends { Ends (S.source.faults input.old) (S.source.faults input.new) (K.keeper.faults standby.old.keeper) (K.keeper.faults standby.new.keeper) (O.sink.faults output.old) (O.sink.faults output.new) result }
{
    let mut left = most;
    'pieces: loop {
        let Ok(count) = read_piece(input, piece, left) else {
            return Err(Ending::Read);
        };
        if count == 0 {
            return ended(held, most - left);
        }
        let begun = most - left - held.len() as u64;
        if count as u64 > left {
            if let Err(why) = answer_piece(held, &piece[..left as usize], begun, output, standby) {
                return Err(why);
            }
            return Err(Ending::TooLong);
        }
        if let Err(why) = answer_piece(held, &piece[..count], begun, output, standby) {
            return Err(why);
        }
        left -= count as u64;
    }
}

/// Answers the record lines of the input, in order. Each reply passes on before the next record line is looked at, and what
/// was written before passes on before the first.
pub(crate) fn answer_records<S: Source, O: Sink, K: Keeper>(
    alloc: Global,
    input: &mut S,
    output: &mut O,
    standby: &mut Standby<K>,
    most: u64,
) -> Result<(), Ending>
    requires { most < 2 ^ 63 }
    ensures ran { (b : Copied) → Stands K.keeper standby.old b → Ran K.keeper S.source O.sink most input.old input.new standby.old standby.new output.old output.new b result }
    ensures ends { Ends (S.source.faults input.old) (S.source.faults input.new) (K.keeper.faults standby.old.keeper) (K.keeper.faults standby.new.keeper) (O.sink.faults output.old) (O.sink.faults output.new) result }
    ensures passed { (b : Copied) → Stands K.keeper standby.old b → O.sink.tells output.old → NotByOutput result → AllPassed O.sink output.new }
{
    if let Err(_) = output.flush() {
        return Err(Ending::Write);
    }
    let mut piece = empty_piece(alloc)?;
    let mut held = Vec::new(alloc);
    answer_input(input, output, standby, &mut held, &mut piece, most)
}
