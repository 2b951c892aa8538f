//! What holds of reports.
ghost use Rattle.feed_reports.specs.Feed.{ComesInPages, EndsWithFeed};

/// The report on a feed is the report on its pages of 100 entries, one behind the other, and ends where the feed ends. It
/// states this and does nothing.
pub fn feed_pages_law()
    ensures pages { ComesInPages }
    ensures end { EndsWithFeed }
{}
