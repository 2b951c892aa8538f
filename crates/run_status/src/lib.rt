//! The statuses that a command ends with: for each its number, its line and its cause.
#![tactic(auto)]

mod status;
mod telling;

pub use status::Status;
pub use telling::tell_status;
