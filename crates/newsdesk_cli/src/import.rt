//! The import of a table.
ghost use Rattle.newsdesk_cli.specs.Imports.{IsImportOf};

use crate::opening::open_noticed;
use crate::telling::tell_trouble;
use list_marks::Notices;
use news_io::{Clock, Disk, Sink, Source};
use news_types::Name;
use std::alloc::Global;
use whole_runs::import_input;

/// Adds the subscribers of the table that the input is, as requests of this caller.
#[tactic(none)]
pub(crate) fn take_table<S: Source, O: Sink, D: Disk, C: Clock, N: Notices>(
    alloc: Global,
    input: &mut S,
    output: &mut O,
    log: D,
    side: D,
    clock: &mut C,
    caller: Name,
    notices: &mut N,
) -> (u8, D, D)
    ensures { IsImportOf D.disk C.clock S.source O.sink log result.1 side result.2 input.old input.new output.old output.new clock.old clock.new result.0 caller }
{
    match open_noticed(alloc, log, side, notices) {
        Ok(mut room) => {
            let status = import_input(alloc, input, output, &mut room, clock, caller);
            let (log, side) = room.into_keeper().into_disks();
            (status, log, side)
        }
        Err((log, side, trouble)) => (tell_trouble(output, trouble), log, side),
    }
}
