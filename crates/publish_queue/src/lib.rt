//! The subscribers' feeds as rows that only grow, the publications that wait to be released, and
//! how the delivery of each feed stands.
#![tactic(auto)]

mod ask;
mod changes;
mod choose;
mod coming;
mod deliver;
mod feed;
mod feeds;
mod marks;
mod publish;
mod queue;
mod release;
mod row;
mod rows;
mod search;
mod setup;
mod turns;
mod waiting;
mod withdraw;

pub use ask::FeedFacts;
pub use news_types::Ready;
pub use queue::Queue;
pub use release::Span;
