//! Why a story comes to a subscriber, or does not: what the rules say of it, and what becomes of a publication.
//!
//! The definitions read the list of accepted entries. The tables in the crates above answer by them.
#![tactic(auto)]

mod course;
mod laws;
mod verdict;

pub use course::Course;
pub use laws::why_law;
pub use verdict::{Refusal, Refusals, Verdict};
