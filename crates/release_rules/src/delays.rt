//! Releases, and how long a push waits before it is tried again.
ghost use Rattle.std.specs.Prelude.{◌≡◌, ◌+◌, ◌≤◌, max, min};
ghost use Rattle.news_types.specs.Publications.{release_at};
ghost use Rattle.news_types.specs.Fits.{IsMoment};
ghost use Rattle.news_types.specs.Due as publications;
ghost use Rattle.news_types.specs.Delivery as delivery;

use news_types::Moment;

/// The release of a first publication that is accepted at the moment: the greatest of that moment,
/// its schedule and its embargo.
pub fn release(moment: Moment, schedule: Option<Moment>, embargo: Option<Moment>) -> Moment
    ensures { result ≡ release_at moment schedule embargo }
{
    moment.max(schedule.unwrap_or(0)).max(embargo.unwrap_or(0))
}

/// The last second of the year 9999.
const LAST_MOMENT: Moment = 253_402_300_799;

/// The release for a subscriber with a lag: later by so many seconds, but not past the last moment, and no
/// earlier than `earlier`, the latest release for it of what is corrected. A release past the last moment stays.
pub fn lagged(release: Moment, lag: u32, earlier: Moment) -> Moment
    ensures value { result ≡ publications.lagged release lag earlier }
    ensures greatest { IsMoment release → result ≡ max earlier (min (release + lag) 253402300799) }
{
    let later = release.saturating_add(u64::from(lag)).min(LAST_MOMENT);
    later.max(earlier).max(release)
}

/// How many seconds a push waits behind `n` tries: a minute behind the first, then twice as long
/// behind each further one, and an hour from the seventh on.
pub fn retry_delay(n: u32) -> u64
    requires { 1 ≤ n }
    ensures value { result ≡ delivery.retry_delay n }
    ensures bound { result ≤ 3600 }
{
    match n {
        1 => 60,
        2 => 120,
        3 => 240,
        4 => 480,
        5 => 960,
        6 => 1920,
        _ => 3600,
    }
}
