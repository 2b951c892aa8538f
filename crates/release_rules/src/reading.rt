//! Text to moments.
ghost use Rattle.std.specs.Prelude.{◌≡◌, ◌↔◌, ℕ, ◌<◌, ◌≤◌, IfSome, length, take, drop};
ghost use Rattle.std.specs.Char.{is_ascii_digit};
ghost use Rattle.std.specs.List.{prefix_len};
ghost use Rattle.std.specs.Option.{option_copied};
ghost use Rattle.jiff_core.specs.Calendar.{IsWithin};
ghost use Rattle.release_rules.specs.Civil.{civil, IsEpochSecond};
ghost use Rattle.release_rules.specs.Texts.{IsTextOf};
ghost use Rattle.release_rules.specs.Reader.{date_at, time_at, clock_seconds_of, seconds_at, behind_fraction, offset_at, in_range, moment_of};

use jiff::civil::DateTime;
use news_types::{Moment, offset_seconds, two_digits};

/// The last moment that has a text, 9999-12-31T23:59:59Z.
const LAST_MOMENT: i64 = 253_402_300_799;

/// The moment that a text names: a date and a time of day, a fraction of a second, which is
/// dropped, and how far the clock stands from UTC. `None` where the text is not of that form, where
/// a calendar has no such date or a clock no such time, and where the moment lies before 1970 or
/// behind the year 9999 of UTC.
pub fn moment_of_text(text: &str) -> Option<Moment>
    ensures value { result ≡ moment_of text.now }
    ensures exact { (moment : ℕ) → (result ≡ Some moment) ↔ IsTextOf text.now moment }
{
    moment_of_bytes(text.as_bytes())
}

fn moment_of_bytes(text: &[u8]) -> Option<Moment>
    ensures { result ≡ moment_of text.now }
{
    let (clock, zone) = text.split_at_checked(19)?;
    let seconds = clock_seconds(clock)?;
    let offset = zone_seconds(after_fraction(zone)?)?;
    moment_in_range(seconds - i64::from(offset))
}

/// The seconds from 1970-01-01T00:00:00 to `YYYY-MM-DDThh:mm:ss`.
fn clock_seconds(text: &[u8]) -> Option<i64>
    requires { length text.now ≡ 19 }
    ensures value { result ≡ clock_seconds_of text.now }
    ensures bound { IfSome result IsEpochSecond }
{
    let (year, month, day) = date_parts(&text[..10])?;
    let (hour, minute, second) = time_parts(&text[10..])?;
    civil_seconds(Clock {
        year,
        month,
        day,
        hour,
        minute,
        second,
    })
}

/// The year, the month and the day of `YYYY-MM-DD`.
fn date_parts(text: &[u8]) -> Option<(u16, u8, u8)>
    ensures value { result ≡ date_at text.now }
    ensures below { IfSome result (λ (y, m, d). (y ≤ 9999) × (m < 100) × (d < 100)) }
{
    let [y1, y2, y3, y4, b'-', m1, m2, b'-', d1, d2] = text else {
        return None;
    };
    let century = two_digits(*y1, *y2)?;
    let year = two_digits(*y3, *y4)?;
    let month = two_digits(*m1, *m2)?;
    let day = two_digits(*d1, *d2)?;
    Some((century as u16 * 100 + year as u16, month, day))
}

/// The hour, the minute and the second of `Thh:mm:ss`.
fn time_parts(text: &[u8]) -> Option<(u8, u8, u8)>
    ensures value { result ≡ time_at text.now }
    ensures below { IfSome result (λ (h, m, s). (h < 100) × (m < 100) × (s < 100)) }
{
    let [b'T', h1, h2, b':', m1, m2, b':', s1, s2] = text else {
        return None;
    };
    Some((
        two_digits(*h1, *h2)?,
        two_digits(*m1, *m2)?,
        two_digits(*s1, *s2)?,
    ))
}

/// A date and a time of day as they are written, which no calendar or clock need have.
#[derive(Clone, Copy)]
struct Clock {
    year: u16,
    month: u8,
    day: u8,
    hour: u8,
    minute: u8,
    second: u8,
}

/// The seconds from 1970-01-01T00:00:00 to the date and time, where a calendar and a clock have them.
fn civil_seconds(clock: Clock) -> Option<i64>
    requires year { clock.year ≤ 9999 }
    requires month { clock.month < 100 }
    requires day { clock.day < 100 }
    requires hour { clock.hour < 100 }
    requires minute { clock.minute < 100 }
    requires second { clock.second < 100 }
    ensures value { result ≡ seconds_at (civil clock.year clock.month clock.day clock.hour clock.minute clock.second) }
    ensures bound { IfSome result IsEpochSecond }
{
    let shown = DateTime::new(
        clock.year as i16,
        clock.month as i8,
        clock.day as i8,
        clock.hour as i8,
        clock.minute as i8,
        clock.second as i8,
        0,
    );
    match shown {
        Ok(shown) => Some(shown.to_plain().to_second()),
        Err(_) => None,
    }
}

/// What stands behind the fraction of a second, which is dropped: a point and 1 to 9 digits.
fn after_fraction(text: &[u8]) -> Option<&[u8]>
    ensures { option_copied result ≡ behind_fraction text.now }
{
    let [b'.', rest @ ..] = text else {
        return Some(text);
    };
    let digits = digit_count(rest);
    if digits == 0 || digits > 9 {
        return None;
    }
    Some(&rest[digits..])
}

/// How many digits the text begins with.
fn digit_count(text: &[u8]) -> usize
    ensures value { result ≡ prefix_len is_ascii_digit text.now }
    ensures bound { result ≤ length text.now }
{
    text.iter().take_while(|byte| byte.is_ascii_digit()).count()
}

/// How many seconds a clock is ahead of UTC.
fn zone_seconds(text: &[u8]) -> Option<i32>
    ensures value { result ≡ offset_at text.now }
    ensures bound { IfSome result (IsWithin 86_340) }
{
    match text {
        b"Z" => Some(0),
        [sign, h1, h2, m1, m2] | [sign, h1, h2, b':', m1, m2] => {
            offset_seconds(*sign, two_digits(*h1, *h2)?, two_digits(*m1, *m2)?)
        }
        _ => None,
    }
}

/// The moment at these seconds from 1970, where it is one.
fn moment_in_range(seconds: i64) -> Option<Moment>
    ensures { result ≡ in_range seconds }
{
    if seconds < 0 || seconds > LAST_MOMENT {
        None
    } else {
        Some(seconds as u64)
    }
}
