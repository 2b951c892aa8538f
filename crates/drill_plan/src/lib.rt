//! The requests of a drill: a run that a number of stories and a seed determine. One desk sends stories of eight urgencies
//! to eight subscribers; the first of them gets every story, each other one those of one urgency.
#![tactic(auto)]

mod agenda;
mod draws;
mod named;
mod plan;
mod planned;
mod setup;
mod stories;

pub use plan::Plan;
pub use planned::Planned;
