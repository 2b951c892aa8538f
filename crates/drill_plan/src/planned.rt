//! A request that is planned.

use news_types::{Command, Moment, Name};

/// A request of a drill, with the moment at which it is asked, in seconds.
#[derive(Drop, PartialEq, Eq)]
pub struct Planned {
    pub moment: Moment,
    pub caller: Name,
    pub number: u64,
    pub command: Command,
}
