//! What becomes of a publication for a subscriber.
use news_types::Moment;

/// What becomes of a publication for a subscriber.
#[derive(Clone, Copy, PartialEq, Eq)]
pub enum Course {
    /// It was not due to the subscriber when it was made.
    NotDue,
    /// It was due, and was taken back before its release to the subscriber.
    TakenBack,
    /// It waits until this moment.
    Waits { until: Moment },
    /// It was sent as entry `k` of the feed, counted from 1, and that was acknowledged or not.
    Sent { k: u32, acked: bool },
}
