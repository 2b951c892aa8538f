//! Accepted entries packed into segments, one spelling for each base and list of entries.
#![tactic(auto)]

mod entries;
mod front;
mod law;
mod names;
mod packing;
mod payload_parts;
mod payloads;
mod reading;
mod segment;
mod told;

pub use law::{names_law, one_segment_law};
pub use packing::{Packed, pack, pack_payloads};
pub use payloads::{SegmentPayloads, unpack_payloads};
pub use reading::unpack;
pub use segment::{Entries, Segment};
