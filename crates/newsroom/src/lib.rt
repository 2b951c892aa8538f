//! The newsroom: tables that stand for one list of accepted entries, and answer from them.
#![tactic(auto)]

mod acts;
mod ask;
mod callers;
mod change;
mod deny;
mod frame;
mod incoming;
mod ingest;
mod newsroom;
mod prepare;
mod records;
mod tables;

pub use change::{Change, Prepared};
pub use newsroom::Newsroom;
