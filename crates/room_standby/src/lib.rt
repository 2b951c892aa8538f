//! A standby, which follows the list of a newsroom record by record and keeps a log of its own, and what ships it the
//! records.
#![tactic(auto)]

mod opening;
mod outcome;
mod promoting;
mod shipping;
mod standby;

pub use outcome::Ship;
pub use shipping::ship;
pub use standby::{Shipped, Standby, StandbyFault};
