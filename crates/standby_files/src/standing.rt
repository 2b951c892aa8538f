//! The command that stands in for a primary.
ghost use Rattle.std.specs.Prelude.{◌+◌, List};
ghost use Rattle.news_types.specs.Names.{Bytes};
ghost use Rattle.standby_files.specs.Opening.{Gives};
ghost use Rattle.standby_files.specs.StandIn.{IsStandIn};
ghost use Rattle.standby_files.specs.Telling.{IsServed};

use crate::opening::open_standby;
use crate::run::run_records;
use crate::telling::tell_trouble;
use news_io::{Disk, Keeper, Sink, Source};
use std::alloc::Global;
use uuid::Uuid;

/// The most bytes of an input.
const LONGEST_INPUT: u64 = 4294967296;

/// Opens two files as the store of a standby, takes the record lines of the input in turn and writes for each how many
/// records are kept. It gives the status, and the files back. Two empty files are made the store of this identifier; files
/// that do not serve are told by their status, and nothing is read then.
#[tactic(none)]
pub fn stand_in<S: Source, O: Sink, D: Disk>(
    alloc: Global,
    store: Uuid,
    input: &mut S,
    output: &mut O,
    log: D,
    side: D,
) -> (u8, D, D)
    ensures stands { IsStandIn D.disk S.source O.sink store log result.1 side result.2 input.old input.new output.old output.new result.0 }
    // Two files that are empty, or hold the store's list, are never told to be another's or damaged, and a failed disk is told only where one has failed.
    ensures serves { D.disk.tells log → D.disk.tells side → (held : List Bytes) → Gives store (D.disk.seen log) (D.disk.seen side) held → IsServed (D.disk.faults log + D.disk.faults side) (D.disk.faults result.1 + D.disk.faults result.2) result.0 }
{
    match open_standby(alloc, log, side, store) {
        Ok(mut standby) => {
            let status = run_records(alloc, input, output, &mut standby, LONGEST_INPUT);
            let (log, side) = standby.into_keeper().into_disks();
            (status, log, side)
        }
        Err((log, side, trouble)) => (tell_trouble(output, trouble), log, side),
    }
}
