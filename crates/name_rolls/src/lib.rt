//! The names of the things of a newsroom, in byte order: the users, the desks and the others, and the stages of each desk.
//!
//! A page of names is found by a binary search, and the rest of the names is not looked at.
#![tactic(auto)]

mod change;
mod roll;
mod rolls;

pub use change::RollChange;
pub use rolls::Rolls;
