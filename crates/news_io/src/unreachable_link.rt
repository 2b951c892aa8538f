//! A link whose receivers cannot be reached.
ghost use Rattle.std.specs.Prelude.{◌≡◌};

use crate::{Failed, Faults, Link};
use news_types::{Name, Names};

/// A link to receivers that cannot be reached: each call that would reach one fails, and is counted.
#[derive(Drop)]
pub struct UnreachableLink {
    names: Names,
    faults: Faults,
}

impl UnreachableLink {
    ghost use Rattle.news_io.specs.Devices.{unreachable_link};

    /// A link to the receivers of these subscribers.
    pub fn new(names: Names) -> UnreachableLink
        ensures serves { unreachable_link.serves result ≡ names }
        ensures tells { unreachable_link.tells result }
        ensures faults { unreachable_link.faults result ≡ 0 }
    {
        UnreachableLink {
            names,
            faults: Faults::none(),
        }
    }

    /// How many of its calls failed.
    pub fn fault_count(&self) -> u64
        ensures { result ≡ unreachable_link.faults self.now }
    {
        self.faults.count()
    }
}

impl Link for UnreachableLink {
    ghost use Rattle.news_io.specs.Devices.{unreachable_link};

    ghost link = { unreachable_link };

    fn names(&self) -> &[Name] {
        self.names.as_slice()
    }

    fn send(&mut self, _subscriber: &Name, _frame: &[u8]) -> Result<(), Failed> {
        Err(self.faults.fail())
    }

    fn receipt(&mut self, _subscriber: &Name, _into: &mut [u8; 128]) -> Result<usize, Failed> {
        Err(self.faults.fail())
    }
}
