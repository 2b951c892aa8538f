//! What a line asks for.

use desk_views::DeskQuestion;
use news_types::{Command, Name, Query, Text};

/// What a line asks for.
#[derive(Drop)]
pub enum Asked {
    /// A request: who makes it, its number, and the command.
    Request {
        caller: Name,
        number: u64,
        command: Command,
    },
    /// A question on the list as it is.
    Query(Query),
    /// A receipt: the subscriber has so many entries of its feed.
    Receipt {
        subscriber: Name,
        n: u32,
    },
    /// A question on the archive: the page, from 0, of what this query finds.
    Archive {
        page: u32,
        query: Text,
    },
    /// A question of a desk.
    Desk(DeskQuestion),
}
