// A message is read on the day of a reading of the clock.
ghost use Rattle.std.specs.Prelude.{◌<◌, ◌+◌, ◌^◌, length};
ghost use Rattle.agency_wires.specs.Reading.{told};
ghost use Rattle.agency_runs.specs.Told.{IsTold};

use crate::message_fault;
use agency_wires::{WireFault, read_message};
use line_run::Stopped;
use news_types::{Incoming, Moment};
use std::alloc::Global;

/// What a message comes to.
#[derive(Drop)]
pub enum Told {
    /// A story, which lies within the limits.
    Story(Incoming),
    /// The line of its fault, without a line feed.
    Line(Vec<u8>),
}

/// Reads the message whose SOH stands at this place of the input, on the day of this reading, a moment in seconds since
/// 1970.
///
/// # Errors
///
/// Want of memory.
pub fn read_at(alloc: Global, at: u64, bytes: &[u8], now: Moment) -> Result<Told, Stopped>
    requires { at + 1 + length bytes.now < 2 ^ 63 }
    ensures { IsTold at (told now bytes.now) result }
{
    match read_message(alloc, bytes, now) {
        Ok(incoming) => Ok(Told::Story(incoming)),
        Err(WireFault::Fault { at: within, what }) => {
            match message_fault(alloc, at, within, what) {
                Ok(line) => Ok(Told::Line(line)),
                Err(why) => Err(why),
            }
        }
        Err(WireFault::Memory) => Err(Stopped::Memory),
    }
}
