//! Accepted entries are told: each as one line of compact JSON, with its keys in byte order.
//!
//! A request is told as the object of a line that asks for the same, with every property of its command.
#![tactic(auto)]

mod commands;
mod entries;
mod law;
mod listed;
mod object;
mod objects;
mod told;
mod words;

pub use entries::tell_entry;
pub use law::audit_law;
