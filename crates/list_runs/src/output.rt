//! What is written.
ghost use Rattle.std.specs.Prelude.{◌≡◌};
ghost use Rattle.news_types.specs.Names.{Bytes};
ghost use Rattle.room_reports.specs.Written.{IsWrittenOut};
ghost use Rattle.list_runs.specs.Output.{Gives, GivesOnce, IsTaken};

use news_io::{Sink, write_all};
use run_status::{Status, tell_status};

/// Writes some lines. The output may hold them back.
pub(crate) fn write_lines<O: Sink>(output: &mut O, lines: &[u8]) -> Result<(), Status>
    ensures { GivesOnce O.sink lines.now output.old output.new result }
{
    match write_all(output, lines) {
        Ok(()) => Ok(()),
        Err(_) => Err(Status::Output),
    }
}

/// Passes on what was written, or tells why there is no more, and gives the status.
pub(crate) fn end<O: Sink>(output: &mut O, written: Result<(), Status>) -> u8
    ensures { (old : O) (bytes : Bytes) → Gives O.sink bytes old output.old written → IsWrittenOut O.sink bytes old output.new result }
{
    match written {
        Ok(()) => pass_on(output),
        Err(status) => tell_status(output, status),
    }
}

/// Passes on what was written, and gives the status.
fn pass_on<O: Sink>(output: &mut O) -> u8
    ensures { (old : O) (bytes : Bytes) → IsTaken O.sink bytes old output.old → IsWrittenOut O.sink bytes old output.new result }
{
    match output.flush() {
        Ok(()) => Status::Done.number(),
        Err(_) => Status::Output.number(),
    }
}
