//! Drains of some links, one behind another.
ghost use Rattle.std.specs.Prelude.{◌≡◌, ℕ, List, IsTrue, length, map};
ghost use Rattle.news_types.specs.declared.entry.Entry.{Entry};
ghost use Rattle.news_types.specs.Books.{Book};
ghost use Rattle.news_room.specs.Stands.{Stands, SomeBook};
ghost use Rattle.publish_workers.specs.Drains.{is_store_end, is_output_end, Prints};
ghost use Rattle.publish_workers.specs.LinkDrains.{LinkDrain, is_idle, AllIdleButLast, end_of_all, drains_readings, drains_lines, drains_last, DrainLinks, LinksDrained, IsDrained};
ghost use Rattle.publish_workers.specs.Links.{Reads, CountsFaults};
ghost use Rattle.publish_workers.specs.Statuses.{drain_status};

use crate::drain::{Drained, drain_feeds};
use news_io::{Clock, Keeper, Link, Sink};
use news_room::Room;
use run_status::{Status, tell_status};
use std::alloc::Global;

/// What a drain is told as at its end: of a failed link and of a reply that is no receipt the link.
pub fn status_of(drained: Drained) -> Status
    ensures { result ≡ drain_status drained }
{
    match drained {
        Drained::Idle {
            link_failed: true,
            ..
        } => Status::Link,
        Drained::Idle {
            no_receipt: true,
            ..
        } => Status::NoReceipt,
        Drained::Idle { .. } => Status::Done,
        Drained::StoreFault => Status::Store,
        Drained::OutputFault => Status::Output,
        Drained::Full { .. } => Status::Full,
        Drained::Memory => Status::Memory,
    }
}

/// Drains each link, in order, until one ends otherwise than with none of its feeds ready.
fn drain_each<K: Keeper, C: Clock, L: Link, O: Sink>(
    alloc: Global,
    room: &mut Room<K>,
    clock: &mut C,
    links: &mut [L],
    output: &mut O,
) -> Drained
    requires stands { SomeBook K.keeper room.old }
    ensures drains { (ds : List LinkDrain) × AllIdleButLast ds × (result ≡ end_of_all ds)
        × (IsTrue (is_idle result) → length ds ≡ length links.old) × DrainLinks L.link links.old links.new ds
        × ((more : List Entry) × ((b : Book) → Stands K.keeper room.old b
        → LinksDrained K.keeper room.old room.new b (map L.link.serves links.old) ds more))
        × (C.clock.tells clock.old → Reads C.clock clock.old clock.new (drains_readings ds))
        × (O.sink.tells output.old → Prints O.sink output.old output.new (drains_lines ds) (drains_last ds)) }
    ensures store_faults { CountsFaults (is_store_end result) (K.keeper.faults room.old.keeper) (K.keeper.faults room.new.keeper) }
    ensures output_faults { CountsFaults (is_output_end result) (O.sink.faults output.old) (O.sink.faults output.new) }
    ensures serves { map L.link.serves links.new ≡ map L.link.serves links.old }
{
    let mut lost = false;
    let mut refused = false;
    for link in links.iter_mut() {
        match drain_feeds(alloc, room, clock, link, output) {
            Drained::Idle {
                link_failed,
                no_receipt,
            } => {
                lost |= link_failed;
                refused |= no_receipt;
            }
            ended => return ended,
        }
    }
    Drained::Idle {
        link_failed: lost,
        no_receipt: refused,
    }
}

/// Drains each link, in order, tells how that ended, and gives the status.
///
/// A link that fails at an attempt, or a reply that is no receipt, does not end it; all else does, and the links behind it are
/// left as they were.
pub fn drain_links<K: Keeper, C: Clock, L: Link, O: Sink>(
    alloc: Global,
    room: &mut Room<K>,
    clock: &mut C,
    links: &mut [L],
    output: &mut O,
) -> u8
    requires stands { SomeBook K.keeper room.old }
    ensures drained { IsDrained K.keeper C.clock O.sink L.link room.old room.new clock.old clock.new links.old links.new output.old output.new result }
    ensures serves { map L.link.serves links.new ≡ map L.link.serves links.old }
{
    let drained = drain_each(alloc, room, clock, links, output);
    tell_status(output, status_of(drained))
}
