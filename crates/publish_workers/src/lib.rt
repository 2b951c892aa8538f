//! The work of a publish worker: it claims the frame that is to be sent next, sends it to its subscriber, and keeps the
//! receipt that comes back.
//!
//! An attempt is kept before its frame is sent, so that a frame which went out is never forgotten. A receipt is kept only
//! where a reply names it.
#![tactic(auto)]

mod drain;
mod laws;
mod links;
mod receipts;
mod turn;
mod worked;

pub use drain::{Drained, drain_feeds};
pub use laws::{completeness_law, links_law, memory_law};
pub use links::{drain_links, status_of};
pub use turn::deliver_turn;
pub use worked::Worked;
