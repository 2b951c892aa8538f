//! What became of what was published, and what providers last sent: for each publication and subscriber the release with
//! which it was made due, and whether that stands; for each item the last ingest that changed it.
#![tactic(auto)]

mod due_change;
mod dues;
mod fill;
mod rows;
mod slots;
mod wires;

pub use due_change::DueChange;
pub use dues::{DueFact, Dues};
pub use wires::{WireChange, Wires};
