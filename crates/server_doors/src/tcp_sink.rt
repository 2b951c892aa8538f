//! The responses of a connection over TCP.
ghost use Rattle.std.specs.Prelude.{◌≡◌};

use crate::outlet::Outlet;
use news_io::{Failed, Faults, Sink};

/// Where the responses of a connection over TCP go. It tells nothing of its bytes. What a client doesn't take at once waits:
/// the door writes it while others are answered.
#[derive(Drop)]
pub struct TcpSink {
    pub(crate) outlet: Outlet,
    faults: Faults,
}

impl TcpSink {
    ghost use Rattle.server_doors.specs.Devices.{tcp_sink};

    pub(crate) fn new(outlet: Outlet) -> TcpSink
        ensures { tcp_sink.faults result ≡ 0 }
    {
        TcpSink {
            outlet,
            faults: Faults::none(),
        }
    }

    /// How many of its calls failed.
    pub fn fault_count(&self) -> u64
        ensures { result ≡ tcp_sink.faults self.now }
    {
        self.faults.count()
    }
}

impl Sink for TcpSink {
    ghost use Rattle.server_doors.specs.Devices.{tcp_sink};

    ghost sink = { tcp_sink };

    fn write(&mut self, from: &[u8]) -> Result<usize, Failed> {
        self.faults.counted(self.outlet.put(from))?;
        Ok(from.len())
    }

    fn flush(&mut self) -> Result<(), Failed> {
        self.faults.counted(self.outlet.pass_on())
    }
}
