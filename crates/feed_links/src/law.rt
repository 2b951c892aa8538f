//! The law of replies.
ghost use Rattle.feed_links.specs.Laws.{ReceiptsAreLines};

/// A receipt is read whole: its one line feed is its last byte.
pub fn replies_law()
    ensures { ReceiptsAreLines }
{}
