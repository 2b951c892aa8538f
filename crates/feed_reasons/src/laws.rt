//! What holds of all reasons.
ghost use Rattle.feed_reasons.specs.Laws.{DueIsSaid, NotDueIsSaid, PermittedIsSaid, SentIsEntry, VerdictsAreTrue, WaitsAsSaid};

/// A story is permitted to a subscriber exactly where the verdict says so, and the cause that it gives is one. A
/// publication is due exactly where its reasons say so, and where it is not, its course says that. What is said to be
/// sent is that entry of the feed, and what is said to wait is among what waits, with that release.
pub fn why_law()
    ensures permitted { PermittedIsSaid }
    ensures causes { VerdictsAreTrue }
    ensures due { DueIsSaid }
    ensures others { NotDueIsSaid }
    ensures sent { SentIsEntry }
    ensures waits { WaitsAsSaid }
{}
