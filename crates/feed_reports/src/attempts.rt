//! Attempts to deliver.
ghost use Rattle.std.specs.Prelude.{◌≡◌, IfOk};
ghost use Rattle.feed_reports.specs.Attempts.{attempt_line, attempt_word};

use news_types::{Bytes, Memory, Name};
use std::alloc::Global;

/// What came of an attempt to deliver an entry of a feed.
#[derive(Clone, Copy, Debug, PartialEq, Eq)]
pub enum Attempted {
    /// The subscriber acknowledged it.
    Delivered,
    /// The link to the subscriber failed.
    LinkFault,
    /// No receipt came back that acknowledges it.
    NoReceipt,
}

/// The line of an attempt: the subscriber, the place of the entry in its feed, and what came of it.
pub fn attempt_text(
    alloc: Global,
    subscriber: &Name,
    k: u32,
    came: Attempted,
) -> Result<Bytes, Memory>
    ensures { IfOk result (λ bytes. bytes ≡ attempt_line subscriber.now k came) }
{
    let line = format!(in alloc; "{} {k} {}\n", subscriber.as_str(), attempt_word(came))?;
    Ok(Bytes::of(line.into_bytes()))
}

fn attempt_word(came: Attempted) -> &'static str
    ensures { result.now ≡ attempt_word came }
{
    match came {
        Attempted::Delivered => "delivered",
        Attempted::LinkFault => "link-fault",
        Attempted::NoReceipt => "no-receipt",
    }
}
