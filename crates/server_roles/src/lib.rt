//! The roles of a running server, beside each other over one shared room: one serves the connections that a door gives, and
//! the others are publish workers, each with a link of its own.
//!
//! A connection that keeps a stop ends all roles. Where the door fails, the first role keeps a halt, which ends the others.
//! Then the passes are put together, the lock is closed, and the room, the door and the links are given back.
#![tactic(auto)]

mod crew;
mod first;
mod halts;
mod job;
mod parts;
mod roles;
mod teams;

pub use crew::Crew;
pub use first::{Ending, first_role};
pub use job::{Job, JobDone};
pub use parts::part;
pub use roles::{Server, ServerEnd, close_at_last, run_roles};
pub use teams::team;
