//! What a provider sends in one body, read whole: its members, in order.
//!
//! A body that is read whole has at most 4,096 members. Each is a story, a message of an agency's wire that is read on the
//! day of its turn, or the line of a fault, so that each can be answered in a turn of its own.
#![tactic(auto)]

mod agency_wire;
mod faults;
mod item;
mod laws;
mod member;
mod reading;
mod rows;
mod told;
mod wire;

pub use laws::members_law;
pub use member::{BodyFault, BodyMember, MOST_MEMBERS};
pub use reading::read_members;
pub use rows::rows_text;
pub use told::told_at;
