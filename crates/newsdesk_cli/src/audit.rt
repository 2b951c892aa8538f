//! A list, entry by entry.
ghost use Rattle.newsdesk_cli.specs.Lists.{IsAudit};

use crate::telling::tell_trouble;
use list_runs::tell_list;
use news_io::{Disk, Sink};
use std::alloc::Global;
use store_files::open_listed;

/// Opens the log and its side, and writes a line for each entry of their list behind the first so many. Nothing is released first.
#[tactic(none)]
pub(crate) fn audit_list<O: Sink, D: Disk>(
    alloc: Global,
    output: &mut O,
    log: D,
    side: D,
    after: u64,
) -> (u8, D, D)
    ensures { IsAudit D.disk O.sink after log result.1 side result.2 output.old output.new result.0 }
{
    match open_listed(alloc, log, side) {
        Ok((room, records)) => {
            // One newsroom at a time stands in memory.
            let store = room.store();
            let (log, side) = room.into_keeper().into_disks();
            let status = tell_list(alloc, output, store, records.as_slice(), after);
            (status, log, side)
        }
        Err((log, side, trouble)) => (tell_trouble(output, trouble), log, side),
    }
}
