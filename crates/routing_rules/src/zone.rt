//! Zones as rules name them, and the local day in them.
ghost use Rattle.std.specs.Prelude.{◌≡◌, ℕ, ℤ, pos, ◌<◌, min, IsTrue, IfSome, option_map};
ghost use Rattle.jiff_core.specs.Calendar.{IsWithin};
ghost use Rattle.jiff_core.specs.Time.{time_seconds};
ghost use Rattle.jiff_core.specs.Weekday.{monday_zero};
ghost use Rattle.jiff_core.specs.Timestamp.{nanos_of_seconds};
ghost use Rattle.jiff_tz.specs.Zone.{offset_at};
ghost use Rattle.jiff.specs.ZoneView.{plain_zone};
ghost use Rattle.news_types.specs.Clock.{local_of, zone_offset, last_local, fixed_of};
ghost use Rattle.news_types.specs.Routing as said;
ghost use Rattle.routing_rules.specs.Zones.{NamesZone};

use jiff::Timestamp;
use jiff::civil::Weekday;
use jiff::tz::{Offset, TimeZone};
use jiff_core::civil;
use news_types::{Moment, offset_seconds, two_digits};

/// The last moment that has a local day in every zone.
const LAST_LOCAL: Moment = 253_402_207_200;

/// Whether the text names a zone: `+hh:mm` or `-hh:mm` within 23:59, or a POSIX rule.
pub(crate) fn is_zone(text: &str) -> bool
    ensures { result ≡ said.is_zone text.now }
{
    read_zone(text).is_some()
}

/// The zone that the text names.
pub(crate) fn zone_of(text: &str) -> TimeZone<'static>
    requires { IsTrue (said.is_zone text.now) }
    ensures { NamesZone text.now result }
{
    match read_zone(text) {
        Some(zone) => zone,
        None => unreachable!(),
    }
}

/// The local weekday, from 0 for Monday, and the local second of the day. A moment past 253402207200 counts as that one.
pub(crate) fn local(zone: &TimeZone<'_>, moment: Moment) -> (u8, u32)
    ensures value { result ≡ local_of moment (offset_at (plain_zone zone.now) (nanos_of_seconds (pos (min moment last_local)))) }
    ensures day { result.0 < 7 }
{
    let instant = match Timestamp::from_second(moment.min(LAST_LOCAL) as i64) {
        Ok(instant) => instant,
        Err(_) => unreachable!(),
    };
    let shown = zone.to_datetime(instant).to_plain();
    (
        weekday_number(shown.date.weekday()),
        second_number(shown.time),
    )
}

fn weekday_number(day: Weekday) -> u8
    ensures value { result ≡ monday_zero day }
    ensures bound { result < 7 }
{
    match day {
        Weekday::Monday => 0,
        Weekday::Tuesday => 1,
        Weekday::Wednesday => 2,
        Weekday::Thursday => 3,
        Weekday::Friday => 4,
        Weekday::Saturday => 5,
        Weekday::Sunday => 6,
    }
}

fn second_number(time: civil::Time) -> u32
    ensures { result ≡ time_seconds time }
{
    time.hour as u32 * 3600 + time.minute as u32 * 60 + time.second as u32
}

fn read_zone(text: &str) -> Option<TimeZone<'static>>
    ensures { (n : ℤ) → option_map (λ zone. offset_at (plain_zone zone) n) result ≡ zone_offset text.now n }
{
    match fixed_seconds(text.as_bytes()) {
        Some(seconds) => Some(fixed_zone(seconds)),
        None => TimeZone::posix(text).ok(),
    }
}

fn fixed_zone(seconds: i32) -> TimeZone<'static>
    requires { IsWithin 86_340 seconds }
    ensures { (n : ℤ) → offset_at (plain_zone result) n ≡ seconds }
{
    match Offset::from_seconds(seconds) {
        Ok(offset) => TimeZone::fixed(offset),
        Err(_) => unreachable!(),
    }
}

fn fixed_seconds(text: &[u8]) -> Option<i32>
    ensures value { result ≡ fixed_of text.now }
    ensures bound { IfSome result (IsWithin 86_340) }
{
    let [sign, a, b, colon, d, e] = text else {
        return None;
    };
    if *colon != b':' {
        return None;
    }
    offset_seconds(*sign, two_digits(*a, *b)?, two_digits(*d, *e)?)
}
