//! What a desk asks of a newsroom, and what it is told: the items that stand on it, the things that there are, whom a story would
//! reach, and what became of what was published.
//!
//! The definitions read the list of accepted entries; the code that answers stands in the crates above.
#![tactic(auto)]

mod question;
mod wire;

pub use question::{DeskQuestion, Register};
pub use wire::Wire;
