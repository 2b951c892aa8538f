//! The way of a frame to its subscriber, and of a reply back, outside the lock.
ghost use Rattle.std.specs.Prelude.{◌≡◌, ◌∷◌, [], ℕ, Bool, true, IsTrue, MatchResult, IfOk, OnErr, if◌then◌else◌};
ghost use Rattle.news_types.specs.Names.{is_in};
ghost use Rattle.news_io.specs.Faults.{Counts};
ghost use Rattle.news_io.specs.Link.{Sent, Said, Nothing};
ghost use Rattle.publish_workers.specs.Links.{Passes, CountsFaults};
ghost use Rattle.publish_workers.specs.Receipts.{IsReceiptFor};
ghost use Rattle.publish_workers.specs.declared.worked.Worked.TheVariants.{NoReceipt};
ghost use Rattle.shared_workers.specs.Exchanges.{is_served, is_lost, Comes, Ends};

use feed_receiver::{Line, read_receipt};
use news_io::{Failed, Link};
use news_room::Claimed;
use news_types::Name;
use publish_workers::Worked;

/// A receipt that came for a frame, and is still to be brought to the room.
#[derive(Drop)]
pub(crate) struct Receipt {
    /// Whose it is.
    pub(crate) subscriber: Name,
    /// The entry of the feed whose frame was sent.
    pub(crate) k: u32,
    /// For how many entries of the feed it is.
    pub(crate) n: u32,
    /// The reply that it is.
    pub(crate) reply: Line,
}

/// Sends the frame of a claim, and reads the reply.
///
/// # Errors
///
/// Where no receipt came for it: what the turn has come to.
pub(crate) fn exchange<L: Link>(link: &mut L, claimed: Claimed) -> Result<Receipt, Worked>
    requires served { is_served (L.link.serves link.old) claimed ≡ true }
    ensures came { MatchResult result (Comes L.link link.old link.new claimed) (Ends L.link link.old link.new claimed) }
    ensures link_faults { CountsFaults (is_lost result) (L.link.faults link.old) (L.link.faults link.new) }
    ensures serves { L.link.serves link.new ≡ L.link.serves link.old }
{
    match claimed {
        Claimed::Job {
            subscriber,
            k,
            frame,
            ..
        } => match reply_to(link, &subscriber, frame.as_slice()) {
            Ok(reply) => receipt_in(subscriber, k, reply),
            Err(_) => Err(Worked::LinkFault { subscriber, k }),
        },
        Claimed::Idle { next } => Err(Worked::Idle { next }),
        Claimed::Fault => Err(Worked::StoreFault),
        Claimed::Full { size, length } => Err(Worked::Full { size, length }),
        Claimed::Memory => Err(Worked::Memory),
    }
}

/// Sends a frame to its subscriber, and reads the reply.
fn reply_to<L: Link>(link: &mut L, subscriber: &Name, frame: &[u8]) -> Result<Line, Failed>
    requires served { IsTrue (is_in subscriber.now (L.link.serves link.old)) }
    ensures reply { IfOk result (λ reply. L.link.tells link.old
        → Passes L.link link.old link.new ((subscriber.now, frame.now) ∷ []) ((subscriber.now, reply) ∷ []) (Sent subscriber.now frame.now ∷ Said subscriber.now reply ∷ [])) }
    // where the link failed, it had taken the frame or not
    ensures lost { OnErr result ((sent : Bool) × (L.link.tells link.old
        → Passes L.link link.old link.new (if sent then (subscriber.now, frame.now) ∷ [] else []) []
        (if sent then Sent subscriber.now frame.now ∷ Nothing ∷ [] else Nothing ∷ []))) }
    ensures count { Counts (L.link.faults link.old) (L.link.faults link.new) result }
    ensures serves { L.link.serves link.new ≡ L.link.serves link.old }
{
    link.send(subscriber, frame)?;
    let mut into = [0; 128];
    let length = link.receipt(subscriber, &mut into)?;
    Ok(Line::of(&into[..length]))
}

/// The receipt that a reply is, where it is one of the subscriber for entry `k` or later ones of its feed.
fn receipt_in(subscriber: Name, k: u32, reply: Line) -> Result<Receipt, Worked>
    ensures { MatchResult result
        (λ r. (r.subscriber ≡ subscriber) × (r.k ≡ k) × (r.reply ≡ reply) × IsReceiptFor subscriber k r.n reply)
        (λ worked. (worked ≡ NoReceipt subscriber k reply) × ((n : ℕ) → IsReceiptFor subscriber k n reply → ⊥)) }
{
    match read_receipt(reply.as_slice()) {
        Some((from, n)) if from == subscriber && n >= k => Ok(Receipt {
            subscriber,
            k,
            n,
            reply,
        }),
        _ => Err(Worked::NoReceipt {
            subscriber,
            k,
            reply,
        }),
    }
}
