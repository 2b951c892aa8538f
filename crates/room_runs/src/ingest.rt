//! The stories of an input come in from a provider.
ghost use Rattle.std.specs.Prelude.{◌≡◌, ◌≤◌, ℕ, length};
ghost use Rattle.news_io.specs.Faults.{Rose};
ghost use Rattle.news_types.specs.Books.{Book};
ghost use Rattle.line_run.specs.Status.{IsComplete};
ghost use Rattle.store_files.specs.Holds.{Holds};
ghost use Rattle.room_runs.specs.Lines.{LONGEST_INPUT};
ghost use Rattle.room_runs.specs.Wires.{WireAnswered, ItemAnswered, AgencyWireAnswered, AgencyItemsAnswered};

use crate::wire::WireDesk;
use agency_runs::{run_agency_items, run_agency_wire};
use news_io::{Clock, Keeper, Sink, Source};
use news_room::Room;
use news_types::Name;
use std::alloc::Global;
use wire_run::{run_item, run_wire};

/// The most bytes of an input that are answered.
const LONGEST_INPUT: u64 = 4294967296;

/// Answers the stories and faults of the wire of IPTC 7901 that the input is, and gives the status. The stories come in from this
/// provider.
pub fn ingest_wire<S: Source, O: Sink, K: Keeper, C: Clock>(
    alloc: Global,
    input: &mut S,
    output: &mut O,
    room: &mut Room<K>,
    clock: &mut C,
    provider: Name,
) -> u8
    requires holds { (b : Book) × ((before : ℕ) × Holds K.keeper room.old b before) }
    ensures answered { (b : Book) (before : ℕ) → Holds K.keeper room.old b before
        → WireAnswered K.keeper C.clock S.source O.sink provider room.old room.new clock.old clock.new input.old input.new output.old output.new b before result }
    ensures complete { S.source.tells input.old → length (S.source.ahead input.old) ≤ LONGEST_INPUT → (Rose (S.source.faults input.old) (S.source.faults input.new) → ⊥) → (Rose (O.sink.faults output.old) (O.sink.faults output.new) → ⊥)
        → (Rose (K.keeper.faults room.old.keeper) (K.keeper.faults room.new.keeper) → ⊥) → IsComplete result }
{
    let mut desk = WireDesk {
        alloc,
        room,
        clock,
        provider,
    };
    run_wire(alloc, input, output, &mut desk, LONGEST_INPUT)
}

/// Answers the one ninjs item that the whole input is, and gives the status. It comes in from this provider.
pub fn ingest_item<S: Source, O: Sink, K: Keeper, C: Clock>(
    alloc: Global,
    input: &mut S,
    output: &mut O,
    room: &mut Room<K>,
    clock: &mut C,
    provider: Name,
) -> u8
    requires holds { (b : Book) × ((before : ℕ) × Holds K.keeper room.old b before) }
    ensures answered { (b : Book) (before : ℕ) → Holds K.keeper room.old b before
        → ItemAnswered K.keeper C.clock S.source O.sink provider room.old room.new clock.old clock.new input.old input.new output.old output.new b before result }
    ensures complete { S.source.tells input.old → length (S.source.ahead input.old) ≤ LONGEST_INPUT → (Rose (S.source.faults input.old) (S.source.faults input.new) → ⊥) → (Rose (O.sink.faults output.old) (O.sink.faults output.new) → ⊥)
        → (Rose (K.keeper.faults room.old.keeper) (K.keeper.faults room.new.keeper) → ⊥) → IsComplete result }
{
    let mut desk = WireDesk {
        alloc,
        room,
        clock,
        provider,
    };
    run_item(alloc, input, output, &mut desk, LONGEST_INPUT)
}

/// Answers the messages and faults of the wire that the input is, as agencies send them, and gives the status. The stories come in from
/// this provider; a message whose post-text information has no digit is told by the day of the reading of the clock.
pub fn ingest_agency_wire<S: Source, O: Sink, K: Keeper, C: Clock>(
    alloc: Global,
    input: &mut S,
    output: &mut O,
    room: &mut Room<K>,
    clock: &mut C,
    provider: Name,
) -> u8
    requires holds { (b : Book) × ((before : ℕ) × Holds K.keeper room.old b before) }
    ensures answered { (b : Book) (before : ℕ) → Holds K.keeper room.old b before
        → AgencyWireAnswered K.keeper C.clock S.source O.sink provider room.old room.new clock.old clock.new input.old input.new output.old output.new b before result }
    ensures complete { S.source.tells input.old → length (S.source.ahead input.old) ≤ LONGEST_INPUT → (Rose (S.source.faults input.old) (S.source.faults input.new) → ⊥) → (Rose (O.sink.faults output.old) (O.sink.faults output.new) → ⊥)
        → (Rose (K.keeper.faults room.old.keeper) (K.keeper.faults room.new.keeper) → ⊥) → IsComplete result }
{
    let mut desk = WireDesk {
        alloc,
        room,
        clock,
        provider,
    };
    run_agency_wire(alloc, input, output, &mut desk, LONGEST_INPUT)
}

/// Answers the item, or each of the list of items, that the whole input is, as agencies send them, and gives the status. They come in
/// from this provider.
pub fn ingest_agency_items<S: Source, O: Sink, K: Keeper, C: Clock>(
    alloc: Global,
    input: &mut S,
    output: &mut O,
    room: &mut Room<K>,
    clock: &mut C,
    provider: Name,
) -> u8
    requires holds { (b : Book) × ((before : ℕ) × Holds K.keeper room.old b before) }
    ensures answered { (b : Book) (before : ℕ) → Holds K.keeper room.old b before
        → AgencyItemsAnswered K.keeper C.clock S.source O.sink provider room.old room.new clock.old clock.new input.old input.new output.old output.new b before result }
    ensures complete { S.source.tells input.old → length (S.source.ahead input.old) ≤ LONGEST_INPUT → (Rose (S.source.faults input.old) (S.source.faults input.new) → ⊥) → (Rose (O.sink.faults output.old) (O.sink.faults output.new) → ⊥)
        → (Rose (K.keeper.faults room.old.keeper) (K.keeper.faults room.new.keeper) → ⊥) → IsComplete result }
{
    let mut desk = WireDesk {
        alloc,
        room,
        clock,
        provider,
    };
    run_agency_items(alloc, input, output, &mut desk, LONGEST_INPUT)
}
