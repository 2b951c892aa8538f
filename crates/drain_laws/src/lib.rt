//! What drains over several links come to, where there is nothing against them.
//!
//! The function states one law, and only calls the laws that it rests on: its contract is the law, over the definitions that
//! the contract of `drain_links` cites too.
#![tactic(auto)]

ghost use Rattle.drain_laws.specs.Complete.{LinksAreComplete};

use news_io::{Clock, Keeper, Link, Sink};
use publish_workers::{completeness_law, links_law};

/// Where no failure of the keeper, the output or a link is counted, no entry would pass the limit (status 8), and each receiver
/// answers as it should, drains over some links end with status 0, or for want of memory (status 9). With status 0 every link
/// was drained, and each of their feeds that had no failed tries before, or whose delay was over, is acknowledged to its end.
pub fn drain_completeness_law<K: Keeper, C: Clock, O: Sink, L: Link>()
    ensures { LinksAreComplete K.keeper C.clock O.sink L.link }
{
    completeness_law::<K>();
    links_law::<K, C, O, L>();
}
