//! Items, what is published of them, and the feeds.
#![tactic(auto)]

mod ask;
mod deliver;
mod feeds;
mod follow;
mod held;
mod ingest;
mod issue;
mod lookup;
mod page;
mod parts;
mod prepare;
mod publish;
mod report;
mod routed;
mod spans;
mod stories;
mod views;
mod withdraw;

pub use ingest::Effect;
pub use issue::Issue;
pub use parts::Parts;
pub use stories::Stories;
