//! Questions at a place of a list.
ghost use Rattle.std.specs.Prelude.{◌≡◌, ◌<◌, All, length};
ghost use Rattle.news_types.specs.History.{History};
ghost use Rattle.list_runs.specs.Lists.{AreOf};
ghost use Rattle.newsdesk_cli.specs.Lists.{AsksAt, IsAsk};

use crate::telling::tell_trouble;
use list_runs::answer_past;
use news_io::{Disk, Keeper, Record, Sink, Source};
use std::alloc::Global;
use store_files::{Trouble, open_listed};
use uuid::Uuid;

/// Opens the log and its side, and answers the lines of the input, which are questions, at the first entries of their list, so many. Nothing
/// is released, and no clock is read.
#[tactic(none)]
pub(crate) fn ask_past<S: Source, O: Sink, D: Disk>(
    alloc: Global,
    input: &mut S,
    output: &mut O,
    log: D,
    side: D,
    entries: u64,
) -> (u8, D, D)
    ensures { IsAsk D.disk S.source O.sink entries log result.1 side result.2 input.old input.new output.old output.new result.0 }
{
    match open_listed(alloc, log, side) {
        Ok((room, records)) => {
            let store = room.store();
            let pair = room.into_keeper();
            let (status, pair) = answer_at(
                alloc,
                input,
                output,
                pair,
                store,
                records.as_slice(),
                entries,
            );
            let (log, side) = pair.into_disks();
            (status, log, side)
        }
        Err((log, side, trouble)) => (tell_trouble(output, trouble), log, side),
    }
}

/// Answers the lines of the input at the first entries of the list of these records, so many; or tells that it has not so many.
fn answer_at<S: Source, O: Sink, K: Keeper>(
    alloc: Global,
    input: &mut S,
    output: &mut O,
    keeper: K,
    store: Uuid,
    records: &[Record],
    entries: u64,
) -> (u8, K)
    requires few { length records.now < 2147483648 }
    requires places { All (λ r. r.at < 4294967296) records.now }
    ensures asked { (h : History) → AreOf records.now h
        → AsksAt K.keeper S.source O.sink entries input.old input.new output.old output.new result.0 h }
    ensures keeper { result.1 ≡ keeper }
{
    if (records.len() as u64) < entries {
        return (tell_trouble(output, Trouble::WrongStore), keeper);
    }
    answer_past(alloc, input, output, keeper, store, records, entries)
}
