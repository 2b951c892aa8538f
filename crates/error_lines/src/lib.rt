//! What failed and why, as lines on standard error in one form: `newsdesk: WHAT: WHY`, of a server behind the moment.
#![tactic(auto)]

mod line;
mod rate;

pub use line::{say, say_usage, tell};
pub use rate::Rate;
