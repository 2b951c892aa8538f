//! Moments to text.
ghost use Rattle.std.specs.Prelude.{◌≡◌, ◌+◌, ◌<◌, ◌≤◌, ◌≤ℤ◌, pos, ℕ, length, min};
ghost use Rattle.jiff_core.specs.Date.{epoch_day};
ghost use Rattle.jiff_core.specs.DateTime.{civil_nanos};
ghost use Rattle.jiff_core.specs.Timestamp.{nanos_of_seconds};
ghost use Rattle.release_rules.specs.Civil.{last_moment};
ghost use Rattle.release_rules.specs.Writer.{moment_text};
ghost use Rattle.release_rules.specs.Texts.{two, IsTextOf};
ghost use Rattle.release_rules.specs.Reader.{moment_of};

use jiff_core::civil::{Date, DateTime};
use news_types::Moment;
use std::marker::Model;

/// The last moment that has a text, 9999-12-31T23:59:59Z.
const LAST_MOMENT: Moment = 253_402_300_799;

/// A moment as `YYYY-MM-DDThh:mm:ssZ`. A contract sees it as its 20 bytes.
#[derive(Clone, Copy)]
pub struct MomentText {
    bytes: [u8; 20],
}

impl Model for MomentText {
    ghost use Rattle.std.specs.Prelude.{ℕ, List, IsAscii, refl};

    ghost Value = { List ℕ };

    ghost view = { λ a. a.bytes };

    ghost invariant = { λ a. IsAscii a.bytes };

    ghost inverse = { λ text. record { bytes = text } };
}

impl MomentText {
    /// Its characters.
    pub fn as_str(&self) -> &str
        ensures { result.now ≡ self.now }
    {
        match std::str::from_utf8(&self.bytes) {
            Ok(text) => text,
            Err(_) => unreachable!(),
        }
    }
}

/// The text of a moment. One past 9999-12-31T23:59:59Z is written as that.
pub fn text_of_moment(moment: Moment) -> MomentText
    ensures value { result ≡ moment_text moment }
    ensures size { length result ≡ 20 }
    ensures names { IsTextOf result (min moment last_moment) }
    ensures reads_back { moment_of result ≡ Some (min moment last_moment) }
{
    let shown = civil_at(moment.min(LAST_MOMENT));
    let year = year_number(shown.date);
    let date = shown.date;
    let time = shown.time;
    let [y1, y2] = digits_of((year / 100) as u8);
    let [y3, y4] = digits_of((year % 100) as u8);
    let [m1, m2] = digits_of(date.month);
    let [d1, d2] = digits_of(date.day);
    let [h1, h2] = digits_of(time.hour);
    let [i1, i2] = digits_of(time.minute);
    let [s1, s2] = digits_of(time.second);
    MomentText {
        bytes: [
            y1, y2, y3, y4, b'-', m1, m2, b'-', d1, d2, b'T', h1, h2, b':', i1, i2, b':', s1, s2,
            b'Z',
        ],
    }
}

/// What calendar and clock show at UTC.
fn civil_at(moment: Moment) -> DateTime
    requires { moment ≤ last_moment }
    ensures { civil_nanos result ≡ nanos_of_seconds (pos moment) }
{
    DateTime::from_nanosecond_in_range(moment as i128 * 1_000_000_000)
}

/// The year of a day from 1970 on.
fn year_number(date: Date) -> u16
    requires { pos 0 ≤ℤ epoch_day date }
    ensures value { date.year ≡ pos result }
    ensures bound { result ≤ 9999 }
{
    date.year as u16
}

/// A number below 100 in two digits.
fn digits_of(n: u8) -> [u8; 2]
    requires { n < 100 }
    ensures { result ≡ two n }
{
    [b'0' + n / 10, b'0' + n % 10]
}
