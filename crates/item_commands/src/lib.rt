//! What a command means for its item: its sort, and the state, the version and the story behind it.
#![tactic(auto)]

mod sort;
mod state;

pub use item_rules::named_item;
pub use sort::{Sort, sort_of};
pub use state::{moved, state_after, state_at, story_given, version_after};
