//! Why a publication is due to a subscriber or not.
ghost use Rattle.newsdesk_cli.specs.Lists.{IsWhy};

use crate::telling::tell_trouble;
use list_runs::tell_why;
use news_io::{Disk, Sink};
use news_types::Name;
use std::alloc::Global;
use store_files::open_listed;

/// Opens the log and its side, and tells why a publication of their list is due to a subscriber or not, and what became of it. Nothing
/// is released first.
#[tactic(none)]
pub(crate) fn explain<O: Sink, D: Disk>(
    alloc: Global,
    output: &mut O,
    log: D,
    side: D,
    publication: u32,
    subscriber: Name,
) -> (u8, D, D)
    ensures { IsWhy D.disk O.sink publication subscriber log result.1 side result.2 output.old output.new result.0 }
{
    match open_listed(alloc, log, side) {
        Ok((room, records)) => {
            let status = tell_why(
                alloc,
                output,
                room.newsroom(),
                records.as_slice(),
                publication,
                &subscriber,
            );
            let (log, side) = room.into_keeper().into_disks();
            (status, log, side)
        }
        Err((log, side, trouble)) => (tell_trouble(output, trouble), log, side),
    }
}
