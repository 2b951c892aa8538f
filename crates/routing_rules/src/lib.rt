//! Schemes: which of their rules apply to a story that comes in, and what these ask for.
//!
//! A rule applies where its filter matches, the local weekday is one of its days, and the local second of the day lies
//! in its span. What the rules that apply ask for is taken in order, up to and with the first exit.
//!
//! The zones that the rules name are read once, when `Routes` is made of a scheme, and not for each story.
#![tactic(auto)]

mod actions;
mod judge;
mod routing;
mod rows;
mod span;
mod zone;

pub use actions::Actions;
pub use judge::judge_scheme;
pub use routing::{Routes, route};
pub use rows::{clocks_of_zones, zones_by_name};
