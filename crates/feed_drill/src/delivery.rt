//! All feeds are delivered to receivers in memory.
ghost use Rattle.std.specs.Prelude.{◌≡◌, false, List, IfOk, OnOk, map};
ghost use Rattle.news_types.specs.Books.{Book};
ghost use Rattle.news_types.specs.declared.query.QueueRow.{QueueRow as Row};
ghost use Rattle.news_io.specs.Devices.{memory_keeper};
ghost use Rattle.news_room.specs.Stands.{Stands, SomeBook};
ghost use Rattle.feed_receiver.specs.Holds.{Received, Holds};
ghost use Rattle.feed_links.specs.Links.{AllHold};
ghost use Rattle.publish_workers.specs.InMemory.{names_of};
ghost use Rattle.feed_drill.specs.Delivery.{empty, IsDelivered};

use crate::nowhere::Nowhere;
use crate::standing::Standing;
use crate::stopped::Stopped;
use feed_links::MemoryLink;
use feed_receiver::Receiver;
use news_io::MemoryKeeper;
use news_room::Room;
use news_types::{Memory, Name, Names, QueueRow};
use publish_workers::{Drained, drain_feeds};
use std::alloc::Global;

/// A receiver of this name that holds nothing.
fn empty_receiver(alloc: Global, name: Name) -> Result<Receiver<MemoryKeeper>, Memory>
    ensures { IfOk result (λ receiver. Holds memory_keeper receiver (empty name)) }
{
    match Receiver::open(alloc, MemoryKeeper::new(alloc), name, &[]) {
        Ok(receiver) => Ok(receiver),
        Err(_) => Err(Memory),
    }
}

/// A link to receivers of the subscribers of these rows. They hold nothing.
pub(crate) fn link_to_all(
    alloc: Global,
    rows: &[QueueRow],
) -> Result<MemoryLink<MemoryKeeper>, Memory>
    ensures names { IfOk result (λ link. names_of link ≡ map (λ (row : Row). row.subscriber) rows.now) }
    ensures holds { IfOk result (λ link. AllHold memory_keeper link (map empty (names_of link))) }
{
    let mut names = Vec::new(alloc);
    let mut receivers = Vec::new(alloc);
    for row in rows {
        names.push(row.subscriber)?;
        receivers.push(empty_receiver(alloc, row.subscriber)?)?;
    }
    Ok(MemoryLink::new(alloc, Names::of(names), receivers, Vec::new(alloc)))
}

/// Nothing where a drain delivered all feeds, or else why it did not: a link or a receiver in memory fails for want of it.
fn delivered(drained: Drained) -> Result<(), Stopped>
    ensures { OnOk result (drained ≡ Drained.Idle false false) }
{
    match drained {
        Drained::Idle {
            link_failed: false,
            no_receipt: false,
        } => Ok(()),
        Drained::Full { .. } => Err(Stopped::Full),
        _ => Err(Stopped::Memory),
    }
}

/// Delivers all feeds over the link, until none is ready at this reading of a clock.
pub(crate) fn deliver(
    alloc: Global,
    room: &mut Room<MemoryKeeper>,
    link: &mut MemoryLink<MemoryKeeper>,
    now: u64,
) -> Result<(), Stopped>
    requires stands { SomeBook memory_keeper room.old }
    ensures { (b : Book) (held : List Received) → Stands memory_keeper room.old b → AllHold memory_keeper link.old held
        → OnOk result (IsDelivered now b held room.new link.old link.new) }
{
    let mut clock = Standing { moment: now };
    let drained = drain_feeds(alloc, room, &mut clock, link, &mut Nowhere);
    delivered(drained)?;
    Ok(())
}
