//! Frames of feeds: what is pushed to a subscriber, byte for byte.
//!
//! A frame names its subscriber, its place in the feed and the length of its payload, which is the publication in the
//! subscriber's format.
#![tactic(auto)]

mod frame;
mod item;
mod laws;

pub use frame::write_frame;
pub use laws::frame_sizes_law;
