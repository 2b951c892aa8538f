//! A link to receivers in memory.
ghost use Rattle.std.specs.Prelude.{◌≡◌, ◌≤◌, ◌++◌, [], ◌∷◌, ℕ, List, length, take, Some, None, MatchOption, OnOk, OnErr};
ghost use Rattle.std.specs.List.{AllZip};
ghost use Rattle.news_io.specs.Link.{IsReply};
ghost use Rattle.feed_receiver.specs.declared.receiver.Receiver.{Receiver};
ghost use Rattle.feed_links.specs.Receivers.{reply_from};

use crate::answer::answer;
use crate::calls::Calls;
use crate::line::first_line_of;
use crate::place::place_of;
use feed_receiver::{Line, Receiver};
use news_io::{Failed, Keeper, Link};
use news_types::{Bytes, Memory, Name, Names};
use std::alloc::Global;

/// A link to receivers that it holds. Of the replies, that to the last frame waits to be read.
#[derive(Drop)]
pub struct MemoryLink<K> {
    alloc: Global,
    names: Names,
    receivers: Vec<Receiver<K>>,
    /// The reply that waits, and whose it is.
    reply: Option<(Name, Line)>,
    sent: Vec<(Name, Bytes)>,
    said: Vec<(Name, Bytes)>,
    calls: Calls,
}

/// Adds some bytes of a subscriber, or leaves the list as it was.
fn tell(
    told: &mut Vec<(Name, Bytes)>,
    alloc: Global,
    subscriber: &Name,
    bytes: &[u8],
) -> Result<(), Memory>
    ensures ok { OnOk result (told.new.items ≡ told.old.items ++ (subscriber.now, bytes.now) ∷ []) }
    ensures err { OnErr result (told.new.items ≡ told.old.items) }
{
    told.push((*subscriber, Bytes::copy_of(alloc, bytes)?))?;
    Ok(())
}

/// Puts the first line of the reply that waits into a piece, if it is this subscriber's, and gives its length.
fn put_reply(waits: &Option<(Name, Line)>, subscriber: &Name, into: &mut [u8; 128]) -> usize
    ensures within { result ≤ 128 }
    ensures bytes { take result into.new ≡ reply_from subscriber.now waits.now }
    ensures reply { IsReply (take result into.new) }
{
    let Some((from, line)) = waits else {
        return 0;
    };
    if *from != *subscriber {
        return 0;
    }
    let length = first_line_of(line.as_slice());
    into[..length].copy_from_slice(&line.as_slice()[..length]);
    length
}

impl<K: Keeper> MemoryLink<K> {
    ghost use Rattle.feed_receiver.specs.Holds.{Received, Holds};
    ghost use Rattle.feed_links.specs.Links.{AllHold, memory_link, receiver_of};

    /// A link to these receivers, one for each of the names, in order. Its calls with these numbers are to fail: sends
    /// and receipts, numbered from 1. A name without a receiver cannot be reached.
    pub fn new(
        alloc: Global,
        names: Names,
        receivers: Vec<Receiver<K>>,
        failing: Vec<u64>,
    ) -> MemoryLink<K>
        ensures serves { (memory_link K.keeper).serves result ≡ names }
        ensures receivers { result.receivers ≡ receivers }
        ensures tells { (held : List Received) → AllZip (Holds K.keeper) receivers.items held → AllHold K.keeper result held }
        ensures waits { result.reply ≡ None }
        ensures sent { (memory_link K.keeper).sent result ≡ [] }
        ensures said { (memory_link K.keeper).said result ≡ [] }
        ensures faults { (memory_link K.keeper).faults result ≡ 0 }
    {
        MemoryLink {
            alloc,
            names,
            receivers,
            reply: None,
            sent: Vec::new(alloc),
            said: Vec::new(alloc),
            calls: Calls::failing_at(failing),
        }
    }

    /// The receiver of a subscriber: nothing where it holds none of that name.
    pub fn receiver(&self, subscriber: &Name) -> Option<&Receiver<K>>
        ensures { MatchOption result (receiver_of self.now subscriber.now ≡ None) (λ r. receiver_of self.now subscriber.now ≡ Some r.now) }
    {
        self.receivers
            .get(place_of(self.names.as_slice(), subscriber)?)
    }

    /// How many frames the receiver of a subscriber holds: nothing where it holds none of that name.
    pub fn count(&self, subscriber: &Name) -> Option<u32>
        ensures { MatchOption result (receiver_of self.now subscriber.now ≡ None)
            (λ n. (r : Receiver K) × (receiver_of self.now subscriber.now ≡ Some r) × ((b : Received) → Holds K.keeper r b → n ≡ length b.frames)) }
    {
        Some(self.receiver(subscriber)?.count())
    }

    /// The frames that it was sent, in order, each with its subscriber.
    pub fn sent(&self) -> &[(Name, Bytes)]
        ensures { result.now ≡ (memory_link K.keeper).sent self.now }
    {
        self.sent.as_slice()
    }

    /// The replies that it gave, in order, each with its subscriber.
    pub fn said(&self) -> &[(Name, Bytes)]
        ensures { result.now ≡ (memory_link K.keeper).said self.now }
    {
        self.said.as_slice()
    }

    /// How many of its calls failed.
    pub fn fault_count(&self) -> u64
        ensures { result ≡ (memory_link K.keeper).faults self.now }
    {
        self.calls.faults.count()
    }
}

impl<K: Keeper> Link for MemoryLink<K> {
    ghost use Rattle.feed_links.specs.Links.{memory_link};

    ghost link = { memory_link K.keeper };

    fn names(&self) -> &[Name] {
        self.names.as_slice()
    }

    /// A frame for whose telling there is no memory is not sent, and counts as a fault.
    fn send(&mut self, subscriber: &Name, frame: &[u8]) -> Result<(), Failed> {
        self.calls.begin()?;
        let Some(place) = place_of(self.names.as_slice(), subscriber) else {
            return Err(self.calls.faults.fail());
        };
        let Some(receiver) = self.receivers.get_mut(place) else {
            return Err(self.calls.faults.fail());
        };
        if let Err(_) = tell(&mut self.sent, self.alloc, subscriber, frame) {
            return Err(self.calls.faults.fail());
        }
        self.reply = Some((*subscriber, answer(receiver, frame)));
        Ok(())
    }

    /// The reply that waits, if it is this subscriber's, and else nothing. A reply that failed to be told waits on.
    fn receipt(&mut self, subscriber: &Name, into: &mut [u8; 128]) -> Result<usize, Failed> {
        self.calls.begin()?;
        let length = put_reply(&self.reply, subscriber, into);
        if let Err(_) = tell(&mut self.said, self.alloc, subscriber, &into[..length]) {
            return Err(self.calls.faults.fail());
        }
        self.reply = None;
        Ok(length)
    }
}
