//! What holds of every drain.
ghost use Rattle.publish_workers.specs.AllLinks.{LinksAreDelivered};
ghost use Rattle.publish_workers.specs.Completeness.{DrainsOnlyDeliver, IdlesAreDone, FeedsAreDelivered, RepliesAreReceipts, DrainsAreComplete};
ghost use Rattle.publish_workers.specs.InMemory.{ReceiversKeepPace, ReceiversHoldAll, ReceiversAnswer, MemoryDrainsAreComplete};

use news_io::{Clock, Keeper, Link, Sink};

/// A drain adds ticks, attempts and receipts alone. Behind one that ended with none of the feeds ready, none is, and each
/// feed whose frames all were delivered is acknowledged to its end. To a receiver that takes its frames as it should every
/// frame is delivered unless the link fails. So where nothing fails and all receivers do, all feeds are acknowledged to their
/// ends.
pub fn completeness_law<K: Keeper>()
    ensures additions { DrainsOnlyDeliver K.keeper }
    ensures idle { IdlesAreDone K.keeper }
    ensures delivered { FeedsAreDelivered K.keeper }
    ensures receipts { RepliesAreReceipts K.keeper }
    ensures complete { DrainsAreComplete K.keeper }
{}

/// Over a link in memory each receiver keeps pace with its feed, whatever fails. Behind a drain that delivered all frames of
/// a subscriber, its receiver holds as many as its feed has entries, and all are acknowledged.
pub fn memory_law<K: Keeper, R: Keeper>()
    ensures pace { ReceiversKeepPace K.keeper R.keeper }
    ensures all { ReceiversHoldAll K.keeper R.keeper }
    ensures answers { ReceiversAnswer K.keeper R.keeper }
    ensures complete { MemoryDrainsAreComplete K.keeper R.keeper }
{}

/// Where drains over some links are told with status 0, all links were drained, and all their feeds are acknowledged.
pub fn links_law<K: Keeper, C: Clock, O: Sink, L: Link>()
    ensures { LinksAreDelivered K.keeper C.clock O.sink L.link }
{}
