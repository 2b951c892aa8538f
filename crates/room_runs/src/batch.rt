//! The lines of an input are answered by a room.
ghost use Rattle.std.specs.Prelude.{◌≡◌, ◌≤◌, ℕ, length};
ghost use Rattle.news_io.specs.Faults.{Rose};
ghost use Rattle.news_types.specs.Books.{Book};
ghost use Rattle.line_run.specs.Status.{IsComplete};
ghost use Rattle.store_files.specs.Holds.{Holds};
ghost use Rattle.room_runs.specs.Batch.{InputAnswered};
ghost use Rattle.room_runs.specs.Lines.{LONGEST_INPUT};

use crate::desk::LineDesk;
use line_run::run_lines;
use news_io::{Clock, Keeper, Sink, Source};
use news_room::Room;
use std::alloc::Global;

/// The longest line that is read, in bytes without its end.
const LONGEST_LINE: u32 = 4194304;

/// The most bytes of an input that are answered.
const LONGEST_INPUT: u64 = 4294967296;

/// Answers the lines of the input, and gives the status.
pub fn answer_input<S: Source, O: Sink, K: Keeper, C: Clock>(
    alloc: Global,
    input: &mut S,
    output: &mut O,
    room: &mut Room<K>,
    clock: &mut C,
) -> u8
    requires holds { (b : Book) × ((before : ℕ) × Holds K.keeper room.old b before) }
    ensures answered { (b : Book) (before : ℕ) → Holds K.keeper room.old b before
        → InputAnswered K.keeper C.clock S.source O.sink room.old room.new clock.old clock.new input.old input.new output.old output.new b before result }
    ensures complete { S.source.tells input.old → length (S.source.ahead input.old) ≤ LONGEST_INPUT → (Rose (S.source.faults input.old) (S.source.faults input.new) → ⊥) → (Rose (O.sink.faults output.old) (O.sink.faults output.new) → ⊥)
        → (Rose (K.keeper.faults room.old.keeper) (K.keeper.faults room.new.keeper) → ⊥) → IsComplete result }
{
    let mut desk = LineDesk { alloc, room, clock };
    run_lines(alloc, input, output, &mut desk, LONGEST_LINE, LONGEST_INPUT)
}
