//! The two files of a store: which files are a newsroom's, and the room that they open to.
#![tactic(auto)]

mod kinds;
mod law;
mod store;
mod trouble;

pub use kinds::is_empty;
pub use law::served_law;
pub use store::{open_listed, open_room};
pub use trouble::Trouble;
