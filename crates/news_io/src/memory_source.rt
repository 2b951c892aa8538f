//! A source in memory.
ghost use Rattle.std.specs.Prelude.{◌≡◌, ◌≤◌, ◌<◌, length};

use crate::script::Script;
use crate::{Failed, Source};

/// Bytes in memory, read from the first on.
#[derive(Drop)]
pub struct MemorySource {
    bytes: Vec<u8>,
    at: usize,
    most: usize,
    script: Script,
    ghost within: { at ≤ length bytes.items },
    ghost some: { 0 < most },
}

impl MemorySource {
    ghost use Rattle.news_io.specs.Devices.{memory_source};

    /// A source of these bytes, which gives as many as are asked for.
    pub fn new(bytes: Vec<u8>) -> MemorySource
        ensures tells { memory_source.tells result }
        ensures ahead { memory_source.ahead result ≡ bytes.items }
        ensures faults { memory_source.faults result ≡ 0 }
    {
        let none = Vec::new(*bytes.allocator());
        MemorySource {
            bytes,
            at: 0,
            most: usize::MAX,
            script: Script::failing_at(none),
        }
    }

    /// The same source, which gives at most so many bytes in a call.
    pub fn in_pieces_of(mut self, most: usize) -> MemorySource
        requires { 0 < most }
        ensures tells { memory_source.tells result }
        ensures ahead { memory_source.ahead result ≡ memory_source.ahead self }
        ensures faults { memory_source.faults result ≡ memory_source.faults self }
    {
        self.most = most;
        self
    }

    /// The same source, whose reads with these numbers are to fail, numbered from 1 from here on.
    pub fn failing_at(mut self, calls: Vec<u64>) -> MemorySource
        ensures tells { memory_source.tells result }
        ensures ahead { memory_source.ahead result ≡ memory_source.ahead self }
        ensures faults { memory_source.faults result ≡ 0 }
    {
        self.script = Script::failing_at(calls);
        self
    }

    /// The bytes that are still to come.
    pub fn remaining(&self) -> &[u8]
        ensures { result.now ≡ memory_source.ahead self.now }
    {
        &self.bytes[self.at..]
    }

    /// How many of its calls failed.
    pub fn fault_count(&self) -> u64
        ensures { result ≡ memory_source.faults self.now }
    {
        self.script.faults.count()
    }
}

impl Source for MemorySource {
    ghost use Rattle.news_io.specs.Devices.{memory_source};

    ghost source = { memory_source };

    fn read(&mut self, into: &mut [u8]) -> Result<usize, Failed> {
        self.script.begin()?;
        let from = &self.bytes[self.at..];
        let count = from.len().min(into.len()).min(self.most);
        into[..count].copy_from_slice(&from[..count]);
        self.at += count;
        Ok(count)
    }
}
