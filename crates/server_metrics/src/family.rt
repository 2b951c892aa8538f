//! The families of metrics.
ghost use Rattle.std.specs.Prelude.{◌≡◌};
ghost use Rattle.server_metrics.specs.Families.{family_name, family_help, family_kind};

/// A family of metrics: what one number, or one number for each of some things, says.
#[derive(Clone, Copy, PartialEq, Eq)]
pub(crate) enum Family {
    Entries,
    Moment,
    LogBytes,
    LogLimit,
    Items,
    ItemsLimit,
    Publications,
    FeedLength,
    FeedAcked,
    FeedTries,
    FeedPaused,
    FeedOldest,
    Requests,
    Attempts,
    LogFaults,
    Ingests,
    IngestMoment,
}

impl Family {
    /// Its name.
    pub(crate) fn name(self) -> &'static str
        ensures { result.now ≡ family_name self }
    {
        match self {
            Family::Entries => "newsdesk_entries",
            Family::Moment => "newsdesk_moment_seconds",
            Family::LogBytes => "newsdesk_log_bytes",
            Family::LogLimit => "newsdesk_log_limit_bytes",
            Family::Items => "newsdesk_items",
            Family::ItemsLimit => "newsdesk_items_limit",
            Family::Publications => "newsdesk_publications",
            Family::FeedLength => "newsdesk_feed_length",
            Family::FeedAcked => "newsdesk_feed_acked",
            Family::FeedTries => "newsdesk_feed_tries",
            Family::FeedPaused => "newsdesk_feed_paused",
            Family::FeedOldest => "newsdesk_feed_oldest_seconds",
            Family::Requests => "newsdesk_requests_total",
            Family::Attempts => "newsdesk_attempts_total",
            Family::LogFaults => "newsdesk_log_faults_total",
            Family::Ingests => "newsdesk_ingests_total",
            Family::IngestMoment => "newsdesk_ingest_seconds",
        }
    }

    /// What it says, in a sentence.
    pub(crate) fn help(self) -> &'static str
        ensures { result.now ≡ family_help self }
    {
        match self {
            Family::Entries => "Entries of the list.",
            Family::Moment => "Moment of the last entry, in seconds of Unix time.",
            Family::LogBytes => "Bytes of the log in use.",
            Family::LogLimit => "Bytes of the log that requests may use.",
            Family::Items => "Items made so far.",
            Family::ItemsLimit => "Items that can be made.",
            Family::Publications => "Publications made so far.",
            Family::FeedLength => "Entries of the feed.",
            Family::FeedAcked => "Entries of the feed that the subscriber acknowledged.",
            Family::FeedTries => "Attempts to deliver the next entry of the feed.",
            Family::FeedPaused => "Whether the feed is paused.",
            Family::FeedOldest =>
                "Seconds since the release of the oldest entry that is not acknowledged.",
            Family::Requests => "Responses since the start, by status.",
            Family::Attempts => "Attempts to deliver since the start, by outcome.",
            Family::LogFaults => "Failures of the log since the start.",
            Family::Ingests => "Stories taken from the provider since the start.",
            Family::IngestMoment =>
                "Moment of the last story from the provider, in seconds of Unix time.",
        }
    }

    /// Whether it only rises, from the start of a server, or may fall.
    pub(crate) fn kind(self) -> &'static str
        ensures { result.now ≡ family_kind self }
    {
        match self {
            Family::Requests | Family::Attempts | Family::LogFaults | Family::Ingests => "counter",
            _ => "gauge",
        }
    }
}
