//! Marks of a list: the digest of its first entries, by which two copies of it are compared, how much of each limit of its
//! store it uses, and what of a store is told to a person when it is opened.
//!
//! Nothing is kept, no clock is read, and nothing is released: the list stays as it is.
#![tactic(auto)]

mod digest;
mod limited;
mod limits;
mod names;
mod notices;
mod output;

pub use digest::tell_digest;
pub use limited::Limited;
pub use limits::{near_limits, tell_limits};
pub use notices::{Notices, Unnoticed, notice_room};
