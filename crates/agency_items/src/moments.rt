//! Moments as agencies write them.
ghost use Rattle.std.specs.Prelude.{◌≡◌, ◌<◌, ◌≤◌, IfOk, IfSome, Some, length, take, drop};
ghost use Rattle.std.specs.Char.{is_ascii_digit};
ghost use Rattle.std.specs.List.{prefix_len};
ghost use Rattle.std.specs.Option.{option_copied};
ghost use Rattle.jiff_core.specs.Calendar.{IsWithin};
ghost use Rattle.serde_json.specs.View.{view};
ghost use Rattle.news_types.specs.Fits.{IsMoment};
ghost use Rattle.release_rules.specs.Civil.{civil, IsEpochSecond};
ghost use Rattle.release_rules.specs.Reader.{date_at, behind_fraction, seconds_at};
ghost use Rattle.agency_items.specs.Moments as said;

use crate::fault::{ItemFault, Property};
use crate::properties::property;
use jiff::civil::DateTime;
use news_types::{Moment, offset_seconds, two_digits};
use serde_json::Value;

/// The last moment of the year 9999 of UTC.
const LAST_MOMENT: i64 = 253_402_300_799;

/// The moment of a property in seconds from 1970-01-01T00:00:00Z, 0 where it is missing or before them.
pub(crate) fn moment(object: &Value, name: Property) -> Result<Moment, ItemFault>
    ensures value { result ≡ said.moment name (view object.now) }
    ensures bound { IfOk result IsMoment }
{
    match property(object, name) {
        None => Ok(0),
        Some(found) => match found.as_str() {
            None => Err(ItemFault::WrongType { property: name }),
            Some(text) => match moment_of(text.as_bytes()) {
                None => Err(ItemFault::WrongType { property: name }),
                Some(moment) => Ok(moment),
            },
        },
    }
}

/// The moment that a text names.
fn moment_of(text: &[u8]) -> Option<Moment>
    ensures value { result ≡ said.moment_of text.now }
    ensures bound { IfSome result IsMoment }
{
    let (minute, rest) = text.split_at_checked(16)?;
    let second = second_at(rest)?;
    let zone = behind_second(rest)?;
    let seconds = clock_seconds(minute, second)?;
    let offset = zone_seconds(zone)?;
    from_1970(seconds - i64::from(offset))
}

/// The second behind the minute, 0 where there is none.
fn second_at(rest: &[u8]) -> Option<u8>
    ensures value { result ≡ said.second_at rest.now }
    ensures below { IfSome result (λ second. second < 100) }
{
    match rest {
        [b':', tens, ones, ..] => two_digits(*tens, *ones),
        _ => Some(0),
    }
}

/// What stands behind the second and its fraction, or behind the minute.
fn behind_second(rest: &[u8]) -> Option<&[u8]>
    ensures { option_copied result ≡ said.behind_second rest.now }
{
    match rest {
        [b':', _, _, rest @ ..] => after_fraction(rest),
        _ => Some(rest),
    }
}

/// What stands behind the fraction of a second, which is dropped: a point and 1 to 9 digits.
fn after_fraction(text: &[u8]) -> Option<&[u8]>
    ensures { option_copied result ≡ behind_fraction text.now }
{
    let [b'.', rest @ ..] = text else {
        return Some(text);
    };
    let digits = digit_count(rest);
    if digits == 0 || digits > 9 {
        return None;
    }
    Some(&rest[digits..])
}

/// How many digits the text begins with.
fn digit_count(text: &[u8]) -> usize
    ensures value { result ≡ prefix_len is_ascii_digit text.now }
    ensures bound { result ≤ length text.now }
{
    text.iter().take_while(|byte| byte.is_ascii_digit()).count()
}

/// The seconds from 1970-01-01T00:00:00 to `YYYY-MM-DDThh:mm` and a second.
fn clock_seconds(minute: &[u8], second: u8) -> Option<i64>
    requires length { length minute.now ≡ 16 }
    requires second { second < 100 }
    ensures value { result ≡ said.clock_seconds_of minute.now (Some second) }
    ensures bound { IfSome result IsEpochSecond }
{
    let (year, month, day) = date_parts(&minute[..10])?;
    let (hour, minute) = time_parts(&minute[10..])?;
    civil_seconds(Clock {
        year,
        month,
        day,
        hour,
        minute,
        second,
    })
}

/// The year, the month and the day of `YYYY-MM-DD`.
fn date_parts(text: &[u8]) -> Option<(u16, u8, u8)>
    ensures value { result ≡ date_at text.now }
    ensures below { IfSome result (λ (y, m, d). (y ≤ 9999) × (m < 100) × (d < 100)) }
{
    let [y1, y2, y3, y4, b'-', m1, m2, b'-', d1, d2] = text else {
        return None;
    };
    let century = two_digits(*y1, *y2)?;
    let year = two_digits(*y3, *y4)?;
    let month = two_digits(*m1, *m2)?;
    let day = two_digits(*d1, *d2)?;
    Some((century as u16 * 100 + year as u16, month, day))
}

/// The hour and the minute of `Thh:mm`.
fn time_parts(text: &[u8]) -> Option<(u8, u8)>
    ensures value { result ≡ said.hour_and_minute text.now }
    ensures below { IfSome result (λ (h, m). (h < 100) × (m < 100)) }
{
    let [b'T' | b't' | b' ', h1, h2, b':', m1, m2] = text else {
        return None;
    };
    Some((two_digits(*h1, *h2)?, two_digits(*m1, *m2)?))
}

/// A date and a time of day as they are written, which no calendar or clock need have.
#[derive(Clone, Copy)]
struct Clock {
    year: u16,
    month: u8,
    day: u8,
    hour: u8,
    minute: u8,
    second: u8,
}

/// The seconds from 1970-01-01T00:00:00 to the date and time, where a calendar and a clock have them.
fn civil_seconds(clock: Clock) -> Option<i64>
    requires year { clock.year ≤ 9999 }
    requires month { clock.month < 100 }
    requires day { clock.day < 100 }
    requires hour { clock.hour < 100 }
    requires minute { clock.minute < 100 }
    requires second { clock.second < 100 }
    ensures value { result ≡ seconds_at (civil clock.year clock.month clock.day clock.hour clock.minute clock.second) }
    ensures bound { IfSome result IsEpochSecond }
{
    let shown = DateTime::new(
        clock.year as i16,
        clock.month as i8,
        clock.day as i8,
        clock.hour as i8,
        clock.minute as i8,
        clock.second as i8,
        0,
    );
    match shown {
        Ok(shown) => Some(shown.to_plain().to_second()),
        Err(_) => None,
    }
}

/// How many seconds a clock is ahead of UTC: none where no zone stands.
fn zone_seconds(text: &[u8]) -> Option<i32>
    ensures value { result ≡ said.zone_at text.now }
    ensures bound { IfSome result (IsWithin 86_340) }
{
    match text {
        [] | b"Z" | b"z" => Some(0),
        [sign, h1, h2] => offset_seconds(*sign, two_digits(*h1, *h2)?, 0),
        [sign, h1, h2, m1, m2] | [sign, h1, h2, b':', m1, m2] => {
            offset_seconds(*sign, two_digits(*h1, *h2)?, two_digits(*m1, *m2)?)
        }
        _ => None,
    }
}

/// The moment at these seconds from 1970: 0 before it, and none behind the last.
fn from_1970(seconds: i64) -> Option<Moment>
    ensures value { result ≡ said.from_1970 seconds }
    ensures bound { IfSome result IsMoment }
{
    if seconds < 0 {
        Some(0)
    } else if seconds > LAST_MOMENT {
        None
    } else {
        Some(seconds as u64)
    }
}
