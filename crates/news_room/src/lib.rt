//! The room: the newsroom over a keeper. Each entry is kept before it counts.
//!
//! Of each call the list tells what is answered and which entries follow, and the keeper whether they are kept. A claim is
//! the one call that may keep two: what its tick releases, and the attempt to send the frame that it hands out. What the
//! first adds stays, whatever becomes of the second.
#![tactic(auto)]

mod acts;
mod answers;
mod claim;
mod laws;
mod opening;
mod replay;
mod room;

pub use answers::{Handled, Kept, RoomFault, Ticked};
pub use claim::Claimed;
pub use laws::completeness_law;
pub use replay::Replay;
pub use room::Room;
