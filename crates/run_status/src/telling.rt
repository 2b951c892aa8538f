//! A status is told at the end of a command.
ghost use Rattle.std.specs.Prelude.{◌≡◌};
ghost use Rattle.run_status.specs.Output.{Told};
ghost use Rattle.run_status.specs.Status.{number_of, line_of};

use crate::Status;
use news_io::{Sink, write_through};

/// Writes the status's line as far as the output takes it and passes it on, and gives the status's number.
pub fn tell_status<O: Sink>(output: &mut O, status: Status) -> u8
    ensures number { result ≡ number_of status }
    ensures told { Told O.sink output.old output.new (line_of status) }
{
    write_line(output, status.line().as_slice());
    status.number()
}

// Writes a line as far as the output takes it, and passes it on.
fn write_line<O: Sink>(output: &mut O, line: &[u8])
    ensures { Told O.sink output.old output.new line.now }
{
    if line.len() == 0 {
        return;
    }
    let _ = write_through(output, line);
}
