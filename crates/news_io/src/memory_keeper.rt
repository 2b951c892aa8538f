//! A keeper in memory, which never leaves a payload in doubt.
ghost use Rattle.std.specs.Prelude.{◌≡◌, ◌++◌, [], ◌∷◌, length, OnOk, OnErr};

use crate::script::Script;
use crate::{AppendFault, Keeper};
use news_types::{Bytes, Memory};
use std::alloc::Global;

/// A list of records in memory.
#[derive(Drop)]
pub struct MemoryKeeper {
    alloc: Global,
    records: Vec<Bytes>,
    used: u64,
    script: Script,
}

/// Adds a payload, or leaves the list as it was.
fn add(records: &mut Vec<Bytes>, payload: Bytes) -> Result<(), Memory>
    ensures ok { OnOk result (records.new.items ≡ records.old.items ++ payload ∷ []) }
    ensures err { OnErr result (records.new.items ≡ records.old.items) }
{
    records.push(payload)?;
    Ok(())
}

impl MemoryKeeper {
    ghost use Rattle.news_io.specs.Devices.{memory_keeper};

    /// No record, and 65 bytes in use, as a log has them behind its header.
    pub fn new(alloc: Global) -> MemoryKeeper
        ensures tells { memory_keeper.tells result }
        ensures list { memory_keeper.list result ≡ [] }
        ensures used { memory_keeper.used result ≡ 65 }
        ensures faults { memory_keeper.faults result ≡ 0 }
    {
        MemoryKeeper::starting_at(alloc, 65)
    }

    /// No record, and so many bytes in use.
    pub fn starting_at(alloc: Global, size: u64) -> MemoryKeeper
        ensures tells { memory_keeper.tells result }
        ensures list { memory_keeper.list result ≡ [] }
        ensures used { memory_keeper.used result ≡ size }
        ensures faults { memory_keeper.faults result ≡ 0 }
    {
        MemoryKeeper {
            alloc,
            records: Vec::new(alloc),
            used: size,
            script: Script::failing_at(Vec::new(alloc)),
        }
    }

    /// The same, and its appends with these numbers are to fail: those from here on that are not full, numbered from 1.
    pub fn failing_at(mut self, calls: Vec<u64>) -> MemoryKeeper
        ensures tells { memory_keeper.tells result }
        ensures list { memory_keeper.list result ≡ memory_keeper.list self }
        ensures used { memory_keeper.used result ≡ memory_keeper.used self }
        ensures faults { memory_keeper.faults result ≡ 0 }
    {
        self.script = Script::failing_at(calls);
        self
    }

    /// The payloads that it keeps.
    pub fn records(&self) -> &[Bytes]
        ensures { result.now ≡ memory_keeper.list self.now }
    {
        self.records.as_slice()
    }

    /// How many of its calls failed.
    pub fn fault_count(&self) -> u64
        ensures { result ≡ memory_keeper.faults self.now }
    {
        self.script.faults.count()
    }

    /// How many appends were made of it that were not full.
    pub fn call_count(&self) -> u64
        ensures { result ≡ memory_keeper.calls self.now }
    {
        self.script.calls
    }
}

impl Keeper for MemoryKeeper {
    ghost use Rattle.news_io.specs.Devices.{memory_keeper};

    ghost keeper = { memory_keeper };

    fn size(&self) -> u64 {
        self.used
    }

    fn append(&mut self, framed: &[u8], limit: u64) -> Result<(), AppendFault> {
        let length = framed.len() as u64;
        if length > limit || self.used > limit - length {
            return Err(AppendFault::Full {
                size: self.used,
                length: length - 5,
            });
        }
        self.script.begin()?;
        let Ok(payload) = Bytes::copy_of(self.alloc, &framed[4..framed.len() - 1]) else {
            self.script.faults.fail();
            return Err(AppendFault::Fault);
        };
        if let Err(_) = add(&mut self.records, payload) {
            self.script.faults.fail();
            return Err(AppendFault::Fault);
        }
        self.used += length;
        Ok(())
    }
}
