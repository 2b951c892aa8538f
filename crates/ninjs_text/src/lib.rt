//! ninjs items are read and written.
//!
//! An item is one JSON object. What it says is the value of its properties, or the first of them, in the order `uri`,
//! `type`, `pubstatus`, `versioncreated`, `embargoed`, `urgency`, `headline`, `byline`, `slugline`, `language`,
//! `body_text`, `body_html`, that is not of its form. A property that is null is missing. Every other property is passed
//! over. What is written is compact JSON with its keys in byte order.
#![tactic(auto)]

mod fault;
mod members;
mod properties;
mod reading;
mod words;
mod writing;

pub use fault::{NinjsFault, Property};
pub use reading::read;
pub use writing::write;
