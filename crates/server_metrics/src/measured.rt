//! What is measured of a room.
ghost use Rattle.std.specs.Prelude.{◌≡◌};
ghost use Rattle.news_types.specs.History.{History, moment_at};
ghost use Rattle.server_metrics.specs.Measured.{age_since, checked_of, gauges_of};
ghost use Rattle.server_metrics.specs.Rows.{is_paused_state};

use crate::family::Family;
use crate::gauges::Gauge;
use news_types::{FeedState, Moment};

/// How many bytes of its log a room may use with a request.
const LOG_LIMIT: u64 = 1_073_737_728;

/// How many items there may be.
const ITEMS_LIMIT: u64 = 262_144;

/// The last moment that there is, in seconds: the end of the year 9999.
const LAST_MOMENT: Moment = 253_402_300_799;

/// How many entries and publications a list has, and its moment.
#[derive(Clone, Copy)]
pub(crate) struct Checked {
    pub(crate) entries: u64,
    pub(crate) moment: Moment,
    pub(crate) publications: u32,
}

/// The moment of a list at a reading of the clock.
pub(crate) fn moment_at(checked: Checked, now: u64) -> Moment
    ensures { (h : History) → checked ≡ checked_of h → result ≡ moment_at h now }
{
    checked.moment.max(now.min(LAST_MOMENT))
}

/// The gauges of a room with so many items, whose log has so many bytes.
pub(crate) fn gauges_of(checked: Checked, items: u32, size: u64) -> [Gauge; 7]
    ensures { result ≡ gauges_of checked items size }
{
    [
        Gauge::new(Family::Entries, checked.entries),
        Gauge::new(Family::Moment, checked.moment),
        Gauge::new(Family::LogBytes, size),
        Gauge::new(Family::LogLimit, LOG_LIMIT),
        Gauge::new(Family::Items, u64::from(items)),
        Gauge::new(Family::ItemsLimit, ITEMS_LIMIT),
        Gauge::new(Family::Publications, u64::from(checked.publications)),
    ]
}

/// Whether a feed that fares so is paused.
pub(crate) fn is_paused(state: FeedState) -> bool
    ensures { result ≡ is_paused_state state }
{
    matches!(state, FeedState::Paused)
}

/// How long ago a release was, in seconds: 0 without one, and where it is still to come.
pub(crate) fn age_since(moment: Moment, release: Option<Moment>) -> u64
    ensures { result ≡ age_since moment release }
{
    match release {
        Some(release) => moment.saturating_sub(release),
        None => 0,
    }
}
