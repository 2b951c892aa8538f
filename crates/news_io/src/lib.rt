//! Everything outside the server as traits, each with a count of its faults, with doubles in memory and adapters of the system.
#![tactic(auto)]

mod clock;
mod disk;
mod faults;
mod file_disk;
mod keeper;
mod link;
mod memory_clock;
mod memory_disk;
mod memory_keeper;
mod memory_sink;
mod memory_source;
mod opening;
mod record;
mod script;
mod sink;
mod source;
mod std_clock;
mod std_sink;
mod std_source;
#[cfg(test)]
mod tests;
mod unreachable_link;

pub use clock::Clock;
pub use disk::Disk;
pub use faults::{Failed, Faults};
pub use file_disk::FileDisk;
pub use keeper::{AppendFault, Keeper};
pub use link::Link;
pub use memory_clock::MemoryClock;
pub use memory_disk::{MemoryDisk, Tear};
pub use memory_keeper::MemoryKeeper;
pub use memory_sink::MemorySink;
pub use memory_source::MemorySource;
pub use opening::{Access, Lock, NotOpened};
pub use record::Record;
pub use sink::{Sink, write_all, write_through};
pub use source::Source;
pub use std_clock::StdClock;
pub use std_sink::StdSink;
pub use std_source::StdSource;
pub use unreachable_link::UnreachableLink;
