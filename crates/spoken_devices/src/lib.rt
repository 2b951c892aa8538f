//! Devices whose failures are told on standard error: a link to receivers over TCP, and a disk.
#![tactic(auto)]

mod disk;
mod link;
mod reply;

pub use disk::{KeepsError, SpokenDisk, StoreFile};
pub use link::SpokenLink;
