//! A sink in memory.
ghost use Rattle.std.specs.Prelude.{◌≡◌, ◌<◌, ◌≤◌, ◌++◌, [], length, OnOk, OnErr};

use crate::script::Script;
use crate::{Failed, Sink};
use news_types::Memory;
use std::alloc::Global;

/// The bytes that were written, in memory, and how many of them a flush has passed on. A write for which there is no
/// memory is a fault.
#[derive(Drop)]
pub struct MemorySink {
    bytes: Vec<u8>,
    /// How many of the bytes have passed on.
    mark: usize,
    most: usize,
    script: Script,
    ghost some: { 0 < most },
    ghost within: { mark ≤ length bytes.items },
}

/// Adds these bytes, or leaves the list as it was.
fn put(bytes: &mut Vec<u8>, from: &[u8]) -> Result<(), Memory>
    ensures ok { OnOk result (bytes.new.items ≡ bytes.old.items ++ from.now) }
    ensures err { OnErr result (bytes.new.items ≡ bytes.old.items) }
{
    bytes.extend_from_slice(from)?;
    Ok(())
}

impl MemorySink {
    ghost use Rattle.news_io.specs.Devices.{memory_sink};

    /// An empty sink, which takes all that it is given.
    pub fn new(alloc: Global) -> MemorySink
        ensures tells { memory_sink.tells result }
        ensures taken { memory_sink.taken result ≡ [] }
        ensures passed { memory_sink.passed result ≡ [] }
        ensures faults { memory_sink.faults result ≡ 0 }
    {
        MemorySink {
            bytes: Vec::new(alloc),
            mark: 0,
            most: usize::MAX,
            script: Script::failing_at(Vec::new(alloc)),
        }
    }

    /// The same sink, which takes at most so many bytes in a call.
    pub fn in_pieces_of(mut self, most: usize) -> MemorySink
        requires { 0 < most }
        ensures tells { memory_sink.tells result }
        ensures taken { memory_sink.taken result ≡ memory_sink.taken self }
        ensures passed { memory_sink.passed result ≡ memory_sink.passed self }
        ensures faults { memory_sink.faults result ≡ memory_sink.faults self }
    {
        self.most = most;
        self
    }

    /// The same sink, whose calls with these numbers are to fail, numbered from 1 from here on: writes and flushes.
    pub fn failing_at(mut self, calls: Vec<u64>) -> MemorySink
        ensures tells { memory_sink.tells result }
        ensures taken { memory_sink.taken result ≡ memory_sink.taken self }
        ensures passed { memory_sink.passed result ≡ memory_sink.passed self }
        ensures faults { memory_sink.faults result ≡ 0 }
    {
        self.script = Script::failing_at(calls);
        self
    }

    /// The bytes that it took.
    pub fn as_bytes(&self) -> &[u8]
        ensures { result.now ≡ memory_sink.taken self.now }
    {
        self.bytes.as_slice()
    }

    /// Those of them that have passed on.
    pub fn passed(&self) -> &[u8]
        ensures { result.now ≡ memory_sink.passed self.now }
    {
        &self.bytes.as_slice()[..self.mark]
    }

    /// How many of its calls failed.
    pub fn fault_count(&self) -> u64
        ensures { result ≡ memory_sink.faults self.now }
    {
        self.script.faults.count()
    }
}

impl Sink for MemorySink {
    ghost use Rattle.news_io.specs.Devices.{memory_sink};

    ghost sink = { memory_sink };

    fn write(&mut self, from: &[u8]) -> Result<usize, Failed> {
        self.script.begin()?;
        let count = from.len().min(self.most);
        if let Err(_) = put(&mut self.bytes, &from[..count]) {
            return Err(self.script.faults.fail());
        }
        Ok(count)
    }

    fn flush(&mut self) -> Result<(), Failed> {
        self.script.begin()?;
        self.mark = self.bytes.len();
        Ok(())
    }
}
