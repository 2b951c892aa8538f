//! Standard output as a sink.
ghost use Rattle.std.specs.Prelude.{◌≡◌, IfOk};

use crate::{Failed, Faults, Sink};
use news_types::Memory;
use std::alloc::Global;
use std::io::{self, BufWriter, Write};

/// How many bytes are held back at most.
const BUFFER: usize = 65536;

/// Standard output, or another writer, behind a buffer of 64 KiB, which a flush empties. It tells nothing of its bytes.
#[derive(Drop)]
pub struct StdSink<W: Write + Drop> {
    writer: BufWriter<W>,
    faults: Faults,
}

impl<W: Write + Drop> StdSink<W> {
    ghost use Rattle.news_io.specs.Devices.{std_sink};

    /// A sink over a writer, as `rt.stdout()`.
    pub fn new(alloc: Global, writer: W) -> Result<StdSink<W>, Memory>
        ensures { IfOk result (λ sink. std_sink.faults sink ≡ 0) }
    {
        let Ok(writer) = BufWriter::with_capacity(alloc, BUFFER, writer) else {
            return Err(Memory);
        };
        Ok(StdSink {
            writer,
            faults: Faults::none(),
        })
    }

    /// How many of its calls failed.
    pub fn fault_count(&self) -> u64
        ensures { result ≡ std_sink.faults self.now }
    {
        self.faults.count()
    }

    /// The system's error at the last call that failed, if one did.
    pub fn last_error(&self) -> Option<io::Error> {
        self.faults.last_error()
    }
}

impl<W: Write + Drop> Sink for StdSink<W> {
    ghost use Rattle.news_io.specs.Devices.{std_sink};

    ghost sink = { std_sink };

    fn write(&mut self, from: &[u8]) -> Result<usize, Failed> {
        self.faults.counted(self.writer.write_all(from))?;
        Ok(from.len())
    }

    fn flush(&mut self) -> Result<(), Failed> {
        self.faults.counted(self.writer.flush())
    }
}
