//! One turn of a worker.
ghost use Rattle.std.specs.Prelude.{◌≡◌, ◌≤◌, List, IsTrue, take, true};
ghost use Rattle.news_types.specs.declared.entry.Entry.{Entry};
ghost use Rattle.news_types.specs.Names.{is_in};
ghost use Rattle.news_types.specs.Books.{Book};
ghost use Rattle.news_types.specs.Calls as call;
ghost use Rattle.news_types.specs.Products.{is_subscriber};
ghost use Rattle.news_room.specs.declared.answers.Kept.{Kept};
ghost use Rattle.news_room.specs.declared.room.Room.{Room};
ghost use Rattle.news_room.specs.Events.{Happens};
ghost use Rattle.news_room.specs.Said.{said_kept};
ghost use Rattle.news_room.specs.Stands.{Stands, SomeBook, numbers};
ghost use Rattle.news_room.specs.Steps.{ReceiptStep};
ghost use Rattle.publish_workers.specs.Turns.{Exchange, Turn, word, word_of_frame, word_of_receipt, is_link_fault, is_store_fault, frames_of, frames_to, IsReplied, replies_of, replies_from, passed_of, passed_with, readings, receipt_readings};
ghost use Rattle.publish_workers.specs.Links.{Passes, Reads, CountsFaults};
ghost use Rattle.publish_workers.specs.Steps.{ExchangeStep, IsReply, TurnHappens};

use crate::receipts::receipt_for;
use crate::worked::Worked;
use feed_receiver::Line;
use news_io::{Clock, Keeper, Link};
use news_room::{Claimed, Kept, Room};
use news_types::Name;

/// One turn of a worker over a link: it claims the frame that is to be sent next to one of the link's subscribers, sends
/// it, reads the reply, and keeps the receipt that the reply is.
///
/// The attempt is kept before the frame is sent, and stays kept where the link fails or no receipt comes back; the feed is
/// then ready again after a while. It sends one frame at the most, and reads the clock once or twice, in seconds.
#[tactic(none)]
pub fn deliver_turn<K: Keeper, C: Clock, L: Link>(
    room: &mut Room<K>,
    clock: &mut C,
    link: &mut L,
) -> Worked
    requires stands { SomeBook K.keeper room.old }
    // what is told, sent, read and kept are those of one turn
    ensures turn { (t : Turn) × (result ≡ word t)
        × ((between : Room K) × (first later : List Entry) × ((b : Book) → Stands K.keeper room.old b
        → TurnHappens K.keeper room.old between room.new b (L.link.serves link.old) t first later))
        × (L.link.tells link.old → Passes L.link link.old link.new (frames_of t.claimed t.exchange) (replies_of t.claimed t.exchange) (passed_of t.claimed t.exchange))
        × (C.clock.tells clock.old → Reads C.clock clock.old clock.new (readings t)) }
    ensures link_faults { CountsFaults (is_link_fault result) (L.link.faults link.old) (L.link.faults link.new) }
    ensures store_faults { CountsFaults (is_store_fault result) (K.keeper.faults room.old.keeper) (K.keeper.faults room.new.keeper) }
    ensures serves { L.link.serves link.new ≡ L.link.serves link.old }
{
    let now = clock.now();
    match room.claim(now, link.names()) {
        Claimed::Job {
            subscriber,
            k,
            frame,
            ..
        } => exchange(room, clock, link, subscriber, k, frame.as_slice()),
        Claimed::Idle { next } => Worked::Idle { next },
        Claimed::Fault => Worked::StoreFault,
        Claimed::Full { size, length } => Worked::Full { size, length },
        Claimed::Memory => Worked::Memory,
    }
}

/// Sends a frame to its subscriber, and brings the receipt that comes back to the room.
#[tactic(none)]
fn exchange<K: Keeper, C: Clock, L: Link>(
    room: &mut Room<K>,
    clock: &mut C,
    link: &mut L,
    subscriber: Name,
    k: u32,
    frame: &[u8],
) -> Worked
    requires stands { SomeBook K.keeper room.old }
    requires served { IsTrue (is_in subscriber (L.link.serves link.old)) }
    ensures went { (x : Exchange) × (result ≡ word_of_frame subscriber k x)
        × ((more : List Entry) × ((b : Book) → Stands K.keeper room.old b → ExchangeStep K.keeper room.old room.new b subscriber x more
        × (is_subscriber b.list subscriber ≡ true → IsReply b.list subscriber k x)))
        × (L.link.tells link.old → Passes L.link link.old link.new (frames_to subscriber frame.now x) (replies_from subscriber x) (passed_with subscriber frame.now x))
        × (C.clock.tells clock.old → Reads C.clock clock.old clock.new (receipt_readings x)) }
    ensures link_faults { CountsFaults (is_link_fault result) (L.link.faults link.old) (L.link.faults link.new) }
    ensures serves { L.link.serves link.new ≡ L.link.serves link.old }
{
    if let Err(_) = link.send(&subscriber, frame) {
        return Worked::LinkFault { subscriber, k };
    }
    let mut into = [0; 128];
    match link.receipt(&subscriber, &mut into) {
        Ok(length) => acknowledge(room, clock, subscriber, k, reply_of(&into, length)),
        Err(_) => Worked::LinkFault { subscriber, k },
    }
}

/// The reply that a piece begins with, of so many bytes.
fn reply_of(piece: &[u8; 128], count: usize) -> Line
    requires { count ≤ 128 }
    ensures { result ≡ take count piece.now }
{
    Line::of(&piece[..count])
}

/// Brings the receipt that a reply is to the room.
#[tactic(none)]
fn acknowledge<K: Keeper, C: Clock>(
    room: &mut Room<K>,
    clock: &mut C,
    subscriber: Name,
    k: u32,
    reply: Line,
) -> Worked
    requires stands { SomeBook K.keeper room.old }
    ensures { (x : Exchange) × (result ≡ word_of_frame subscriber k x) × IsReplied reply x
        × ((more : List Entry) × ((b : Book) → Stands K.keeper room.old b → ExchangeStep K.keeper room.old room.new b subscriber x more
        × (is_subscriber b.list subscriber ≡ true → IsReply b.list subscriber k x)))
        × (C.clock.tells clock.old → Reads C.clock clock.old clock.new (receipt_readings x)) }
{
    match receipt_for(&subscriber, k, reply.as_slice()) {
        Some(n) => {
            let now = clock.now();
            bring(room, now, subscriber, k, n, reply)
        }
        None => Worked::NoReceipt {
            subscriber,
            k,
            reply,
        },
    }
}

/// Brings a receipt to the room.
#[tactic(none)]
fn bring<K: Keeper>(
    room: &mut Room<K>,
    now: u64,
    subscriber: Name,
    k: u32,
    n: u32,
    reply: Line,
) -> Worked
    requires stands { SomeBook K.keeper room.old }
    ensures { (kept : Kept) × (result ≡ word_of_receipt subscriber k reply n kept)
        × ((more : List Entry) × ((b : Book) → Stands K.keeper room.old b
        → Happens K.keeper room.old room.new b more (call.Receipted subscriber n) now (said_kept kept) (ReceiptStep (numbers K.keeper room.old room.new) b now subscriber n more kept))) }
{
    match room.receipt(now, subscriber, n) {
        Kept::Done(_) => Worked::Delivered { subscriber, k, n },
        Kept::Denied(_) => Worked::NoReceipt {
            subscriber,
            k,
            reply,
        },
        Kept::Fault => Worked::StoreFault,
        Kept::Full { size, length } => Worked::Full { size, length },
    }
}
