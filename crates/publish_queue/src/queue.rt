//! What a queue holds.
ghost use Rattle.std.specs.Prelude.{◌≡◌, map, vec_len};
ghost use Rattle.std.specs.Ordering.{nat_cmp};
ghost use Rattle.std.specs.Cmp.Lexicographic.{slice_cmp};
ghost use Rattle.std.specs.List.Sorted.{IsStrictlySortedBy-prop};
ghost use Rattle.std.proofs.Props.{props};
ghost use Rattle.news_types.specs.Names.{AreInOrder};
ghost use Rattle.publish_queue.specs.Many.{name_of};

use crate::feed::Feed;
use crate::turns::Turns;
use crate::waiting::WaitingList;
use news_types::{Moment, Name};
use std::alloc::Global;

/// The subscribers' feeds.
#[derive(Drop)]
pub(crate) struct Feeds {
    /// The subscribers in byte order.
    pub(crate) names: Vec<Name>,
    /// Their feeds, in the same order.
    pub(crate) feeds: Vec<Feed>,
    /// The feeds that may be pushed, in the order of their turns.
    pub(crate) turns: Turns,
    ghost paired: { vec_len names ≡ vec_len feeds },
    ghost ascends: { AreInOrder names.items } by { IsStrictlySortedBy-prop (slice_cmp nat_cmp) names.items },
    ghost named: { map name_of feeds.items ≡ names.items } by { Prim.hlevel props },
}

/// The subscribers' feeds, and the publications that wait.
#[derive(Drop)]
pub struct Queue {
    pub(crate) alloc: Global,
    pub(crate) moment: Moment,
    pub(crate) feeds: Feeds,
    /// The publications whose own release is still to come, whoever they are due to.
    pub(crate) waiting: WaitingList,
    /// The next moment at which a publication is released, or is to a subscriber.
    pub(crate) next: Option<Moment>,
}
