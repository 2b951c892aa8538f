//! The reports on feeds that a room gives: on one feed, or on all of them. Each stands behind a tick, so that it tells what
//! is released by now.
#![tactic(auto)]

mod feed;
mod output;
mod queue;
mod release;

pub use feed::tell_feed;
pub use queue::tell_queue;
