//! Standard input as a source.
ghost use Rattle.std.specs.Prelude.{◌≡◌, ◌≤◌, length, IfOk};

use crate::{Failed, Faults, Source};
use news_types::Memory;
use std::alloc::Global;
use std::io::{self, BufReader, ErrorKind, Read};

/// How many bytes are read at a time.
const BUFFER: usize = 65536;

/// Standard input, or another reader, behind a buffer of 64 KiB. It tells nothing of its bytes.
#[derive(Drop)]
pub struct StdSource<R> {
    reader: BufReader<R>,
    faults: Faults,
}

/// One read, which is made again where a signal cut it short.
fn read_again<R: Read>(reader: &mut R, into: &mut [u8]) -> io::Result<usize>
    ensures { IfOk result (λ n. n ≤ length into.old) }
{
    for _ in 0..u64::MAX {
        match reader.read(into) {
            Err(error) if error.kind() == ErrorKind::Interrupted => {}
            got => return got,
        }
    }
    Err(io::Error::from(ErrorKind::Interrupted))
}

impl<R: Read + Drop> StdSource<R> {
    ghost use Rattle.news_io.specs.Devices.{std_source};

    /// A source over a reader, as `rt.stdin()`.
    pub fn new(alloc: Global, reader: R) -> Result<StdSource<R>, Memory>
        ensures { IfOk result (λ source. std_source.faults source ≡ 0) }
    {
        let Ok(reader) = BufReader::with_capacity(alloc, BUFFER, reader) else {
            return Err(Memory);
        };
        Ok(StdSource {
            reader,
            faults: Faults::none(),
        })
    }

    /// How many of its calls failed.
    pub fn fault_count(&self) -> u64
        ensures { result ≡ std_source.faults self.now }
    {
        self.faults.count()
    }

    /// The system's error at the last call that failed, if one did.
    pub fn last_error(&self) -> Option<io::Error> {
        self.faults.last_error()
    }
}

impl<R: Read + Drop> Source for StdSource<R> {
    ghost use Rattle.news_io.specs.Devices.{std_source};

    ghost source = { std_source };

    fn read(&mut self, into: &mut [u8]) -> Result<usize, Failed> {
        self.faults.counted(read_again(&mut self.reader, into))
    }
}
