//! What is told at the end, with its status.
ghost use Rattle.std.specs.Prelude.{OnOk, OnErr};
ghost use Rattle.standby_files.specs.Telling.{IsWritten, IsCut, IsTold, IsStopped};

use news_io::{Failed, Sink, write_through};
use run_status::{Status, tell_status};
use store_files::Trouble;

/// Writes bytes, and passes them on.
fn write_out<O: Sink>(output: &mut O, bytes: &[u8]) -> Result<(), Failed>
    ensures written { OnOk result (IsWritten O.sink output.old output.new bytes.now) }
    ensures cut { OnErr result (IsCut O.sink output.old output.new bytes.now) }
{
    write_through(output, bytes)
}

/// Writes a line, and then tells this status, or that of a failed output.
pub(crate) fn tell_line<O: Sink>(output: &mut O, line: &[u8], status: Status) -> u8
    ensures { IsTold O.sink line.now status output.old output.new result }
{
    match write_out(output, line) {
        Ok(()) => tell_status(output, status),
        Err(_) => Status::Output.number(),
    }
}

/// Tells why there is nothing to do, and gives the status.
pub(crate) fn tell_trouble<O: Sink>(output: &mut O, trouble: Trouble) -> u8
    ensures { IsStopped O.sink trouble output.old output.new result }
{
    tell_status(output, Status::from(trouble))
}
