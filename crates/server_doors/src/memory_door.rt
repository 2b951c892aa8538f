//! A door in memory.
ghost use Rattle.std.specs.Prelude.{◌≡◌, ◌≤◌, ◌++◌, ◌∷◌, [], length, OnOk, OnErr};
ghost use Rattle.std.specs.Vec.{vec_capacity};
ghost use Rattle.news_io.specs.Devices.{memory_source};

use crate::connection::Opened;
use crate::door::Door;
use news_io::{Failed, Faults, MemorySink, MemorySource};
use news_types::{Bytes, Memory};
use std::alloc::Global;

/// A door that gives connections with some inputs, each with an empty output, and keeps what is given back. One for which
/// there is no memory is lost, and counts as a fault.
#[derive(Drop)]
pub struct MemoryDoor {
    alloc: Global,
    /// The inputs that are still to be given, the next one last.
    waiting: Vec<MemorySource>,
    given: Vec<Opened>,
    returned: Vec<(MemorySource, MemorySink)>,
    /// The calls that are to fail, by their numbers from 1.
    failing: Vec<u64>,
    calls: u64,
    faults: Faults,
    ghost few: { length returned.items ≤ length given.items },
    ghost room: { length given.items ≤ vec_capacity returned },
}

impl MemoryDoor {
    ghost use Rattle.server_doors.specs.Devices.{memory_door};

    /// A door that gives connections with these inputs, in order, and then no more. Its calls of `accept` with these numbers
    /// are to fail, numbered from 1.
    pub fn new(alloc: Global, mut inputs: Vec<MemorySource>, failing: Vec<u64>) -> MemoryDoor
        ensures tells { memory_door.tells result }
        ensures given { memory_door.given result ≡ [] }
        ensures returned { memory_door.returned result ≡ [] }
        ensures faults { memory_door.faults result ≡ 0 }
    {
        inputs.reverse();
        MemoryDoor {
            alloc,
            waiting: inputs,
            given: Vec::new(alloc),
            returned: Vec::new(alloc),
            failing,
            calls: 0,
            faults: Faults::none(),
        }
    }

    /// The connections that were given back, in order.
    pub fn returned(&self) -> &[(MemorySource, MemorySink)]
        ensures { result.now ≡ self.now.returned.items }
    {
        self.returned.as_slice()
    }

    /// How many of its calls failed.
    pub fn fault_count(&self) -> u64
        ensures { result ≡ memory_door.faults self.now }
    {
        self.faults.count()
    }

    // Notes a connection with this input, and makes room for it to be given back.
    fn admit(&mut self, input: &MemorySource) -> Result<(), Memory>
        ensures ok { OnOk result (self.new.given.items ≡ self.old.given.items
            ++ record { input = memory_source.ahead input.now; input_faults = memory_source.faults input.now; output_faults = 0 } ∷ []) }
        ensures err { OnErr result (self.new.given.items ≡ self.old.given.items) }
        ensures returned { self.new.returned.items ≡ self.old.returned.items }
        ensures faults { self.new.faults ≡ self.old.faults }
    {
        let opened = Opened {
            input: Bytes::copy_of(self.alloc, input.remaining())?,
            input_faults: input.fault_count(),
            output_faults: 0,
        };
        self.given.reserve(1)?;
        self.returned
            .reserve(self.given.len() - self.returned.len() + 1)?;
        self.given.push_reserved(opened);
        Ok(())
    }
}

impl Door for MemoryDoor {
    ghost use Rattle.server_doors.specs.Devices.{memory_door};

    type In = MemorySource;

    type Out = MemorySink;

    ghost door = { memory_door };

    fn accept(&mut self) -> Result<(MemorySource, MemorySink), Failed> {
        self.calls = self.calls.saturating_add(1);
        if self.failing.contains(&self.calls) {
            return Err(self.faults.fail());
        }
        let Some(input) = self.waiting.pop() else {
            return Err(self.faults.fail());
        };
        if let Err(_) = self.admit(&input) {
            return Err(self.faults.fail());
        }
        Ok((input, MemorySink::new(self.alloc)))
    }

    fn give_back(&mut self, input: MemorySource, output: MemorySink) {
        self.returned.push_reserved((input, output));
    }
}
