//! Publications by their numbers, and what stands of each item.
#![tactic(auto)]

mod change;
mod later;
mod numbers;
mod table;

pub use change::PublicationChange;
pub use table::{FirstFacts, OfItem, Publications, Published};
