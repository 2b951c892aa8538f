//! A drill in memory: a newsroom takes the requests of a plan, delivers all of its feeds to receivers, and reports on them.
#![tactic(auto)]

mod asking;
mod delivery;
mod drill;
mod nowhere;
mod report;
mod standing;
mod stopped;

pub use drill::run_drill;
