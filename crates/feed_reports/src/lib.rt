//! Reports as texts, a line for each thing that is reported: the entries of a feed, the feeds of the queue, an attempt
//! to deliver.
#![tactic(auto)]

mod attempts;
mod feed;
mod laws;
mod queue;

pub use attempts::{Attempted, attempt_text};
pub use feed::feed_text;
pub use laws::feed_pages_law;
pub use queue::{queue_text, summary_text};
