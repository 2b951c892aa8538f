//! The server of a newsroom: its room is opened from the files of a store, and serves connections and pushes feeds until a stop.
#![tactic(auto)]

mod deal;
mod opening;
mod prepare;
mod serve;
mod setup;
mod summary;

pub use opening::open_store;
pub use serve::run_serve;
pub use setup::{Served, Setup};
