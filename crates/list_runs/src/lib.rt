//! Questions at a place of a list, and why: each entry of a list as a line, questions at its first entries, and why a publication
//! is due to a subscriber or not.
//!
//! Nothing is kept, no clock is read, and nothing is released: the list stays as it is.
#![tactic(auto)]

mod audit;
mod making;
mod output;
mod past;
mod reasons;
mod terms;
mod why;

pub use audit::tell_list;
pub use past::answer_past;
pub use why::tell_why;
