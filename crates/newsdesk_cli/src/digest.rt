//! The digest of the first entries of a list.
ghost use Rattle.newsdesk_cli.specs.Lists.{IsDigest};

use crate::telling::tell_trouble;
use list_marks::tell_digest;
use news_io::{Disk, Sink};
use std::alloc::Global;
use store_files::open_listed;

/// Opens the log and its side, and tells the digest of the first entries of their list, so many. Nothing is released first.
#[tactic(none)]
pub(crate) fn digest_list<O: Sink, D: Disk>(
    alloc: Global,
    output: &mut O,
    log: D,
    side: D,
    entries: u64,
) -> (u8, D, D)
    ensures { IsDigest D.disk O.sink entries log result.1 side result.2 output.old output.new result.0 }
{
    match open_listed(alloc, log, side) {
        Ok((room, records)) => {
            let status = tell_digest(output, records.as_slice(), entries);
            let (log, side) = room.into_keeper().into_disks();
            (status, log, side)
        }
        Err((log, side, trouble)) => (tell_trouble(output, trouble), log, side),
    }
}
