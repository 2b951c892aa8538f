//! The limits of a store.
ghost use Rattle.newsdesk_cli.specs.Lists.{IsLimits};

use crate::telling::tell_trouble;
use list_marks::tell_limits;
use news_io::{Disk, Sink};
use std::alloc::Global;
use store_files::open_room;

/// Opens the log and its side, and tells each limit of the store, and how much of it is used. Nothing is released first.
#[tactic(none)]
pub(crate) fn list_limits<O: Sink, D: Disk>(
    alloc: Global,
    output: &mut O,
    log: D,
    side: D,
) -> (u8, D, D)
    ensures { IsLimits D.disk O.sink log result.1 side result.2 output.old output.new result.0 }
{
    match open_room(alloc, log, side) {
        Ok(room) => {
            let status = tell_limits(alloc, output, &room);
            let (log, side) = room.into_keeper().into_disks();
            (status, log, side)
        }
        Err((log, side, trouble)) => (tell_trouble(output, trouble), log, side),
    }
}
