//! A room's log and its side as one keeper: the side holds a packed front of the list, and the log the rest of it.
#![tactic(auto)]

mod checking;
mod emptying;
mod entries;
mod fault;
mod filling;
mod keeping;
mod law;
mod loaded;
mod making;
mod meeting;
mod next_segment;
mod opening;
mod pack_fault;
mod packing;
mod pair;
mod reading;
mod room_heading;
mod segments;
mod side_making;
mod side_reading;
mod unpacking;

pub use fault::PairFault;
pub use law::{only_segment_law, packable_law, segment_law, undamaged_law};
pub use opening::OpenedPair;
pub use pack_fault::PackFault;
pub use pair::Pair;
