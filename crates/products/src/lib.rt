//! Products and subscribers: who is permitted a story and why, and to whom a publication is due.
#![tactic(auto)]

mod change;
mod due;
mod judge;
mod permit;
mod table;
mod verdict;

pub use change::ProductChange;
pub use table::{KeptProduct, KeptSubscriber, Products};
