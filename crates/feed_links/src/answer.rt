//! What a receiver replies to some bytes.
ghost use Rattle.std.specs.Prelude.{◌≡◌};
ghost use Rattle.feed_receiver.specs.Holds.{Received, Holds};
ghost use Rattle.feed_links.specs.Receivers.{Replies, is_replied};

use feed_receiver::{Line, Receiver, Taken};
use news_io::Keeper;

/// Whether a receiver replies with this answer: not to what is no frame, and not where a frame was not kept.
fn is_replied(answer: Taken) -> bool
    ensures { result ≡ is_replied answer }
{
    match answer {
        Taken::BadFrame { .. } | Taken::Fault | Taken::Full { .. } | Taken::Memory => false,
        Taken::NotMine | Taken::Known { .. } | Taken::Ahead { .. } | Taken::Accepted { .. } => true,
    }
}

/// Gives some bytes to a receiver, and tells its reply: its receipt, or nothing.
pub(crate) fn answer<K: Keeper>(receiver: &mut Receiver<K>, bytes: &[u8]) -> Line
    ensures { (b : Received) → Holds K.keeper receiver.old b
        → (now : Received) × Holds K.keeper receiver.new now × Replies b bytes.now now result }
{
    if is_replied(receiver.take(bytes)) {
        receiver.receipt()
    } else {
        Line::of(b"")
    }
}
