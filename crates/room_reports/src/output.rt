//! What is written.
ghost use Rattle.std.specs.Prelude.{◌≡◌};
ghost use Rattle.room_reports.specs.Parts.{ended, Writes};
ghost use Rattle.room_reports.specs.Written.{IsStopped};

use news_io::{Sink, write_through};
use run_status::{Status, tell_status};

/// Writes some lines of a report, and passes them on.
pub(crate) fn write_part<O: Sink>(output: &mut O, lines: &[u8]) -> Result<(), Status>
    ensures { Writes O.sink lines.now output.old output.new result }
{
    match write_through(output, lines) {
        Ok(()) => Ok(()),
        Err(_) => Err(Status::Output),
    }
}

/// Tells how a report ended, and gives the status.
pub(crate) fn tell_end<O: Sink>(output: &mut O, written: Result<(), Status>) -> u8
    ensures { IsStopped O.sink (ended written) output.old output.new result }
{
    match written {
        Ok(()) => tell_status(output, Status::Done),
        Err(status) => tell_status(output, status),
    }
}
