//! What a provider sends is taken in.
ghost use Rattle.std.specs.Prelude.{◌≡◌, ◌≤◌, ℕ, length};
ghost use Rattle.news_io.specs.Faults.{Rose};
ghost use Rattle.news_types.specs.Books.{Book};
ghost use Rattle.line_run.specs.Status.{IsComplete};
ghost use Rattle.store_files.specs.Holds.{Holds};
ghost use Rattle.room_runs.specs.Lines.{LONGEST_INPUT};
ghost use Rattle.newsdesk_cli.specs.Command.{IsIngest};
ghost use Rattle.newsdesk_cli.specs.Ingests.{IngestAnswered};

use crate::opening::open_noticed;
use crate::telling::tell_trouble;
use command_words::IngestFormat;
use list_marks::Notices;
use news_io::{Clock, Disk, Keeper, Sink, Source};
use news_room::Room;
use news_types::Name;
use room_runs::{ingest_agency_items, ingest_agency_wire, ingest_item, ingest_wire};
use std::alloc::Global;

/// Opens the log and its side, and takes in what the input has, in this format, from this provider.
#[tactic(none)]
pub(crate) fn ingest<S: Source, O: Sink, D: Disk, C: Clock, N: Notices>(
    alloc: Global,
    input: &mut S,
    output: &mut O,
    log: D,
    side: D,
    clock: &mut C,
    format: IngestFormat,
    provider: Name,
    notices: &mut N,
) -> (u8, D, D)
    ensures { IsIngest D.disk C.clock S.source O.sink log result.1 side result.2 input.old input.new output.old output.new clock.old clock.new result.0 format provider }
{
    match open_noticed(alloc, log, side, notices) {
        Ok(mut room) => {
            let status = take_in(alloc, input, output, &mut room, clock, format, provider);
            let (log, side) = room.into_keeper().into_disks();
            (status, log, side)
        }
        Err((log, side, trouble)) => (tell_trouble(output, trouble), log, side),
    }
}

/// Takes in what the input has, in this format, from this provider, and gives the status.
fn take_in<S: Source, O: Sink, K: Keeper, C: Clock>(
    alloc: Global,
    input: &mut S,
    output: &mut O,
    room: &mut Room<K>,
    clock: &mut C,
    format: IngestFormat,
    provider: Name,
) -> u8
    requires holds { (b : Book) × ((before : ℕ) × Holds K.keeper room.old b before) }
    ensures answered { (b : Book) (before : ℕ) → Holds K.keeper room.old b before
        → IngestAnswered K.keeper C.clock S.source O.sink provider format room.old room.new clock.old clock.new input.old input.new output.old output.new b before result }
    ensures complete { S.source.tells input.old → length (S.source.ahead input.old) ≤ LONGEST_INPUT → (Rose (S.source.faults input.old) (S.source.faults input.new) → ⊥) → (Rose (O.sink.faults output.old) (O.sink.faults output.new) → ⊥)
        → (Rose (K.keeper.faults room.old.keeper) (K.keeper.faults room.new.keeper) → ⊥) → IsComplete result }
{
    match format {
        IngestFormat::Wire => ingest_wire(alloc, input, output, room, clock, provider),
        IngestFormat::Item => ingest_item(alloc, input, output, room, clock, provider),
        IngestFormat::AgencyWire => {
            ingest_agency_wire(alloc, input, output, room, clock, provider)
        }
        IngestFormat::AgencyItems => {
            ingest_agency_items(alloc, input, output, room, clock, provider)
        }
    }
}
