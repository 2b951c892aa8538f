//! Objects that are told: compact JSON without floats, with keys in byte order.
#![tactic(auto)]

mod object;
mod told;

pub use object::Object;
pub use told::{Shown, Spelled};
