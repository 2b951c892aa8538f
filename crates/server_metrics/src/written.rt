//! The text of the metrics.
ghost use Rattle.std.specs.Prelude.{◌≡◌, IfOk};
ghost use Rattle.server_metrics.specs.Written.{metrics_by};

use crate::feeds::{FeedGauge, put_feeds};
use crate::gauges::{Gauge, put_gauges};
use crate::since::put_counts;
use news_types::{Bytes, Memory};
use server_counts::Counts;
use std::alloc::Global;

/// Writes the gauges of a room, those of its feeds, and the counts.
pub(crate) fn write_metrics(
    alloc: Global,
    gauges: &[Gauge],
    feeds: &[FeedGauge],
    counts: &Counts,
) -> Result<Bytes, Memory>
    ensures { IfOk result (λ text. text ≡ metrics_by gauges.now feeds.now counts.now) }
{
    let mut text = String::new(alloc);
    put_gauges(&mut text, gauges)?;
    put_feeds(&mut text, feeds)?;
    put_counts(&mut text, counts)?;
    Ok(Bytes::of(text.into_bytes()))
}
