//! What a turn is told as.
ghost use Rattle.std.specs.Prelude.{◌≡◌};
ghost use Rattle.publish_workers.specs.Turns.{is_link_fault, is_no_receipt};

use feed_receiver::Line;
use news_types::{Moment, Name};

/// What a turn of a worker came to.
#[derive(Drop)]
pub enum Worked {
    /// The frame was sent, and the receipt that came back is kept.
    Delivered {
        /// To whom.
        subscriber: Name,
        /// The entry's number in the subscriber's feed.
        k: u32,
        /// How many entries of the feed the receipt is for.
        n: u32,
    },
    /// None of the feeds is ready: nothing is sent.
    Idle {
        /// The next moment at which one may be, if nothing else happens, in seconds.
        next: Option<Moment>,
    },
    /// The frame was sent, and the reply is no receipt of this subscriber for that entry or later ones of its feed. The
    /// attempt is kept, and no receipt.
    NoReceipt {
        /// To whom.
        subscriber: Name,
        /// The entry's number in the subscriber's feed.
        k: u32,
        /// The reply that was read.
        reply: Line,
    },
    /// The link has failed, and its count of faults has risen: the frame was not sent, or its reply was not read. The
    /// attempt is kept, and no receipt.
    LinkFault {
        /// To whom.
        subscriber: Name,
        /// The entry's number in the subscriber's feed.
        k: u32,
    },
    /// The keeper has failed, and its count of faults has risen, at an entry of the claim or at the receipt. A crash may
    /// leave the entry that was tried behind the list.
    StoreFault,
    /// An entry of the claim or the receipt would pass the limit: it is not kept.
    Full {
        /// The bytes in use.
        size: u64,
        /// The length of the entry's payload in bytes.
        length: u64,
    },
    /// There is no memory for the frame: no attempt is kept, and nothing is sent.
    Memory,
}

impl Worked {
    /// Whether the link has failed.
    pub fn is_link_fault(&self) -> bool
        ensures { result ≡ is_link_fault self.now }
    {
        matches!(self, Worked::LinkFault { .. })
    }

    /// Whether the reply was no receipt for the frame.
    pub fn is_no_receipt(&self) -> bool
        ensures { result ≡ is_no_receipt self.now }
    {
        matches!(self, Worked::NoReceipt { .. })
    }
}
