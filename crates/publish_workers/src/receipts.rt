//! Receipts for an entry of a feed.
ghost use Rattle.std.specs.Prelude.{ℕ, MatchOption};
ghost use Rattle.publish_workers.specs.Receipts.{IsReceiptFor};

use feed_receiver::read_receipt;
use news_types::Name;

/// How many entries of its feed the subscriber acknowledges with a reply, where that is a receipt for entry `k` or later
/// ones.
pub(crate) fn receipt_for(subscriber: &Name, k: u32, reply: &[u8]) -> Option<u32>
    ensures { MatchOption result ((n : ℕ) → IsReceiptFor subscriber.now k n reply.now → ⊥) (λ n. IsReceiptFor subscriber.now k n reply.now) }
{
    let (from, n) = read_receipt(reply)?;
    if from != *subscriber || n < k {
        return None;
    }
    Some(n)
}
