//! The feeds of subscribers.
ghost use Rattle.std.specs.Prelude.{◌≡◌, ◌++◌, string_bytes, OnOk};
ghost use Rattle.std.specs.List.{flat_map};
ghost use Rattle.server_metrics.specs.Feeds.{family_of, feed_family, feed_sample, feeds_text, measures, value_of};

use crate::family::Family;
use crate::text::{put_heading, put_labelled};
use news_types::Name;
use std::alloc::AllocError;

/// How a feed fares, as numbers. The age of the oldest entry that is not acknowledged is in seconds, 0 where there is none.
#[derive(Clone, Copy)]
pub(crate) struct FeedGauge {
    pub(crate) subscriber: Name,
    pub(crate) length: u32,
    pub(crate) acked: u32,
    pub(crate) tries: u32,
    pub(crate) paused: bool,
    pub(crate) oldest: u64,
}

/// What is measured of a feed.
#[derive(Clone, Copy)]
pub(crate) enum Measure {
    Length,
    Acked,
    Tries,
    Paused,
    Oldest,
}

impl Measure {
    fn family(self) -> Family
        ensures { result ≡ family_of self }
    {
        match self {
            Measure::Length => Family::FeedLength,
            Measure::Acked => Family::FeedAcked,
            Measure::Tries => Family::FeedTries,
            Measure::Paused => Family::FeedPaused,
            Measure::Oldest => Family::FeedOldest,
        }
    }

    fn value(self, feed: &FeedGauge) -> u64
        ensures { result ≡ value_of self feed.now }
    {
        match self {
            Measure::Length => u64::from(feed.length),
            Measure::Acked => u64::from(feed.acked),
            Measure::Tries => u64::from(feed.tries),
            Measure::Paused => u64::from(feed.paused),
            Measure::Oldest => feed.oldest,
        }
    }
}

/// Appends the families of the feeds.
pub(crate) fn put_feeds(text: &mut String, feeds: &[FeedGauge]) -> Result<(), AllocError>
    ensures { OnOk result (string_bytes text.new ≡ string_bytes text.old ++ feeds_text feeds.now) }
{
    let measures = [
        Measure::Length,
        Measure::Acked,
        Measure::Tries,
        Measure::Paused,
        Measure::Oldest,
    ];
    put_measures(text, &measures, feeds)
}

fn put_measures(
    text: &mut String,
    measures: &[Measure],
    feeds: &[FeedGauge],
) -> Result<(), AllocError>
    ensures { OnOk result (string_bytes text.new ≡ string_bytes text.old ++ flat_map (feed_family feeds.now) measures.now) }
{
    for measure in measures {
        put_measure(text, *measure, feeds)?;
    }
    Ok(())
}

/// Appends the family of a measure, if there is a feed.
fn put_measure(text: &mut String, measure: Measure, feeds: &[FeedGauge]) -> Result<(), AllocError>
    ensures { OnOk result (string_bytes text.new ≡ string_bytes text.old ++ feed_family feeds.now measure) }
{
    if feeds.is_empty() {
        return Ok(());
    }
    put_heading(text, measure.family())?;
    put_samples(text, measure, feeds)
}

fn put_samples(text: &mut String, measure: Measure, feeds: &[FeedGauge]) -> Result<(), AllocError>
    ensures { OnOk result (string_bytes text.new ≡ string_bytes text.old ++ flat_map (feed_sample measure) feeds.now) }
{
    for feed in feeds {
        put_sample(text, measure, feed)?;
    }
    Ok(())
}

fn put_sample(text: &mut String, measure: Measure, feed: &FeedGauge) -> Result<(), AllocError>
    ensures { OnOk result (string_bytes text.new ≡ string_bytes text.old ++ feed_sample measure feed.now) }
{
    put_labelled(
        text,
        measure.family(),
        "subscriber",
        feed.subscriber.as_str(),
        measure.value(feed),
    )
}
