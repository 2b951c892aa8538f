//! What is told at the end of a run.
ghost use Rattle.room_reports.specs.Written.{IsStopped};
ghost use Rattle.whole_runs.specs.Output.{IsTextTold};

use news_io::{Sink, write_through};
use run_status::{Status, tell_status};

/// Tells a status as its line, and gives its number.
pub(crate) fn tell_stop<O: Sink>(output: &mut O, status: Status) -> u8
    ensures { IsStopped O.sink status output.old output.new result }
{
    tell_status(output, status)
}

/// Tells a text, and gives the status.
pub(crate) fn tell_text<O: Sink>(output: &mut O, text: &[u8]) -> u8
    ensures { IsTextTold O.sink text.now output.old output.new result }
{
    match write_through(output, text) {
        Ok(()) => Status::Done.number(),
        Err(_) => Status::Output.number(),
    }
}
