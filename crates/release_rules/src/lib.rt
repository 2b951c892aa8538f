//! When a publication is released, when a push is tried again, and how moments are written.
#![tactic(auto)]

mod delays;
mod reading;
mod writing;

pub use delays::{lagged, release, retry_delay};
pub use reading::moment_of_text;
pub use writing::{MomentText, text_of_moment};
