//! What is written.
ghost use Rattle.std.specs.Prelude.{◌≡◌};
ghost use Rattle.room_reports.specs.Written.{IsWrittenOut};

use news_io::{Sink, write_through};
use run_status::Status;

/// Writes lines and passes them on, and gives the status. It takes no memory.
pub(crate) fn write_out<O: Sink>(output: &mut O, lines: &[u8]) -> u8
    ensures written { IsWrittenOut O.sink lines.now output.old output.new result }
    ensures memory { result ≡ 9 → ⊥ }
{
    match write_through(output, lines) {
        Ok(()) => Status::Done.number(),
        Err(_) => Status::Output.number(),
    }
}
