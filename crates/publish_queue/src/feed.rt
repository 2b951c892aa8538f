//! The feed of one subscriber.
ghost use Rattle.std.specs.Prelude.{◌≡◌, ◌+◌, ◌<◌, ◌≤◌, vec_len, vec_capacity};
ghost use Rattle.std.specs.VecDeque.{deque_len};

use crate::row::Row;
use crate::waiting::WaitingList;
use news_types::{Moment, Name};

/// How the delivery of a feed stands.
#[derive(Clone, Copy)]
pub struct Delivery {
    /// So many entries were acknowledged.
    pub acked: u32,
    /// The attempts since then, or since the feed was resumed.
    pub tries: u32,
    /// The moment of the last attempt.
    pub tried: Moment,
    // So that a delay behind it is a number of 64 bits.
    ghost early: { tried < 253402300800 },
}

impl Delivery {
    /// The same, as though nothing had been tried.
    pub fn resumed(self) -> Delivery
        ensures acked { result.acked ≡ self.acked }
        ensures tries { result.tries ≡ 0 }
        ensures tried { result.tried ≡ self.tried }
    {
        Delivery {
            acked: self.acked,
            tries: 0,
            tried: self.tried,
        }
    }
}

/// The row of a subscriber, the publications that wait for it, and how its delivery stands.
#[derive(Drop)]
pub struct Feed {
    pub name: Name,
    pub row: Row,
    pub waiting: WaitingList,
    pub delivery: Delivery,
    /// The moment under which it stands among the feeds that may be pushed.
    pub turn: Option<Moment>,
    // What waits has its place in the row already, so that a release takes no memory.
    ghost numbers: { vec_len row.numbers + deque_len waiting.releases ≤ vec_capacity row.numbers },
    ghost releases: { vec_len row.numbers + deque_len waiting.releases ≤ vec_capacity row.releases },
    ghost few: { vec_len row.numbers + deque_len waiting.releases ≤ 4294967295 },
}
