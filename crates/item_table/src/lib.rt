//! Items: the state of each, its version, its story, and where it came from.
#![tactic(auto)]

mod change;
mod identity;
mod row;
mod shared;
mod table;

pub use change::ItemChange;
pub use row::Setting;
pub use shared::SharedStory;
pub use table::{ItemFacts, Items};
