//! Shows on a terminal that long work goes on.
#![tactic(auto)]

mod meter;
mod watched;

pub use meter::{Content, Meter};
pub use watched::Watched;
