//! Releases, delays, lags, and moments as texts.

use news_types::Moment;
use release_rules::{lagged, moment_of_text, release, retry_delay, text_of_moment};

const LAST_MOMENT: Moment = 253_402_300_799;

const DELAYS: &[(u32, u64)] = &[
    (1, 60),
    (2, 120),
    (3, 240),
    (4, 480),
    (5, 960),
    (6, 1920),
    (7, 3600),
    (8, 3600),
    (u32::MAX, 3600),
];

#[test]
fn delays(rt: HostRuntime) {
    assert_eq!(rt; first_other_delay(DELAYS), None);
}

/// How many tries the first row with another delay has.
fn first_other_delay(rows: &[(u32, u64)]) -> Option<u32> {
    for (n, seconds) in rows {
        if delay_of(*n) != Some(*seconds) {
            return Some(*n);
        }
    }
    None
}

fn delay_of(n: u32) -> Option<u64> {
    if n >= 1 { Some(retry_delay(n)) } else { None }
}

const LAGS: &[(Moment, u32, Moment, Moment)] = &[
    (1000, 0, 0, 1000),
    (1000, 600, 0, 1600),
    (1300, 600, 1600, 1900),
    (1500, 0, 1600, 1600),
    (LAST_MOMENT, 604_800, 0, LAST_MOMENT),
    (Moment::MAX, 604_800, 0, Moment::MAX),
];

#[test]
fn lags(rt: HostRuntime) {
    assert_eq!(rt; first_other_lag(LAGS), None);
}

/// The first row with another moment.
fn first_other_lag(rows: &[(Moment, u32, Moment, Moment)]) -> Option<usize> {
    for place in 0..rows.len() {
        let (moment, lag, earlier, expected) = rows[place];
        if lagged(moment, lag, earlier) != expected {
            return Some(place);
        }
    }
    None
}

#[test]
fn releases(rt: HostRuntime) {
    assert_eq!(rt;
        [
            release(1000, None, None),
            release(1000, None, Some(2000)),
            release(1000, Some(2000), None),
            release(1000, Some(2000), Some(3000)),
            release(1000, Some(3000), Some(2000)),
            release(5000, Some(2000), Some(3000)),
        ],
        [1000, 2000, 2000, 3000, 3000, 5000]
    );
}

// The texts of these moments are those of Python's datetime.
const WRITTEN: &[(&str, Moment)] = &[
    ("1970-01-01T00:00:00Z", 0),
    ("1970-01-01T00:00:01Z", 1),
    ("1970-01-01T00:00:59Z", 59),
    ("1970-01-01T00:01:00Z", 60),
    ("1970-01-01T00:16:40Z", 1_000),
    ("1970-01-01T23:59:59Z", 86_399),
    ("1970-01-02T00:00:00Z", 86_400),
    ("1970-12-31T23:59:59Z", 31_535_999),
    ("1971-01-01T00:00:00Z", 31_536_000),
    ("1972-02-28T23:59:59Z", 68_169_599),
    ("1972-02-29T00:00:00Z", 68_169_600),
    ("1972-02-29T23:59:59Z", 68_255_999),
    ("1972-03-01T00:00:00Z", 68_256_000),
    ("2000-02-28T23:59:59Z", 951_782_399),
    ("2000-02-29T00:00:00Z", 951_782_400),
    ("2000-03-01T00:00:00Z", 951_868_800),
    ("2004-02-29T00:00:00Z", 1_078_012_800),
    ("2023-11-14T22:13:20Z", 1_700_000_000),
    ("2024-02-29T00:00:00Z", 1_709_164_800),
    ("2024-05-01T08:00:00Z", 1_714_550_400),
    ("2100-02-28T23:59:59Z", 4_107_542_399),
    ("2100-03-01T00:00:00Z", 4_107_542_400),
    ("2400-02-29T00:00:00Z", 13_574_563_200),
    ("3000-01-01T00:00:00Z", 32_503_680_000),
    ("5393-01-30T11:51:19Z", 108_022_074_679),
    ("2466-11-24T22:29:36Z", 15_680_644_176),
    ("9057-03-02T20:21:07Z", 223_649_410_867),
    ("2859-07-19T10:57:47Z", 28_071_399_467),
    ("7055-07-20T11:18:16Z", 160_484_411_896),
    ("9871-10-25T18:44:05Z", 249_357_206_645),
    ("3808-05-23T06:32:21Z", 58_013_994_741),
    ("2655-08-13T06:25:28Z", 21_635_879_128),
    ("5567-09-04T15:42:18Z", 113_531_643_738),
    ("9999-12-31T00:00:00Z", 253_402_214_400),
    ("9999-12-31T23:59:58Z", 253_402_300_798),
    ("9999-12-31T23:59:59Z", 253_402_300_799),
];

#[test]
fn written_texts(rt: HostRuntime) {
    assert_eq!(rt; first_other(WRITTEN), None);
}

/// The text of the first row that is not written and read so.
fn first_other(rows: &[(&'static str, Moment)]) -> Option<&'static str> {
    for (text, moment) in rows {
        if !agree(text, *moment) {
            return Some(text);
        }
    }
    None
}

fn agree(text: &str, moment: Moment) -> bool {
    is_written(text, moment) && moment_of_text(text) == Some(moment)
}

fn is_written(text: &str, moment: Moment) -> bool {
    text_of_moment(moment).as_str() == text
}

#[test]
fn later_moments_are_written_as_the_last(rt: HostRuntime) {
    assert_eq!(rt;
        [
            is_written("9999-12-31T23:59:59Z", LAST_MOMENT + 1),
            is_written("9999-12-31T23:59:59Z", Moment::MAX),
        ],
        [true; 2]
    );
}

// The moments of these texts are those of Python's datetime.
const READ: &[(&str, Moment)] = &[
    ("2024-05-01T10:00:00+02:00", 1_714_550_400),
    ("2024-05-01T10:00:00+0200", 1_714_550_400),
    ("2024-05-01T10:00:00-02:00", 1_714_564_800),
    ("2024-05-01T10:00:00-0200", 1_714_564_800),
    ("2024-05-01T10:00:00Z", 1_714_557_600),
    ("2024-05-01T10:00:00.5Z", 1_714_557_600),
    ("2024-05-01T10:00:00.123456789+05:30", 1_714_537_800),
    ("2024-05-01T10:00:00.999999999-0930", 1_714_591_800),
    ("9999-12-31T23:59:59Z", 253_402_300_799),
    ("9999-12-31T23:59:59+23:59", 253_402_214_459),
    ("1970-01-01T00:00:00Z", 0),
    ("1970-01-01T00:00:00-00:00", 0),
    ("1970-01-01T23:59:00+23:59", 0),
    ("1969-12-31T00:01:00-23:59", 0),
    ("1969-12-31T23:59:59-00:01", 59),
    ("2000-02-29T12:00:00Z", 951_825_600),
    ("2024-02-29T23:59:59Z", 1_709_251_199),
    ("2023-02-28T00:00:00Z", 1_677_542_400),
    ("2096-02-29T00:00:00+01:00", 3_981_308_400),
    ("2400-02-29T00:00:00Z", 13_574_563_200),
    ("1977-08-13T05:06:07-1145", 240_339_067),
    ("2038-01-19T03:14:08Z", 2_147_483_648),
    ("3141-05-09T02:06:05+14:00", 36_964_209_965),
];

#[test]
fn texts_that_are_read(rt: HostRuntime) {
    assert_eq!(rt; first_misread(READ), None);
}

/// The text of the first row that is read otherwise.
fn first_misread(rows: &[(&'static str, Moment)]) -> Option<&'static str> {
    for (text, moment) in rows {
        if moment_of_text(text) != Some(*moment) {
            return Some(text);
        }
    }
    None
}

const REFUSED: &[&str] = &[
    "",
    "2024-05-01",
    "2024-05-01T10:00:00",
    "2024-05-01T10:00Z",
    "1969-12-31T23:59:59Z",
    "1970-01-01T00:00:00+00:01",
    "1969-12-31T00:00:59-23:59",
    "9999-12-31T23:59:59-00:01",
    "0000-01-01T00:00:00Z",
    "0000-01-01T00:00:00+23:59",
    "0000-12-31T23:59:59-23:59",
    "10000-01-01T00:00:00Z",
    "1900-02-29T00:00:00Z",
    "2100-02-29T00:00:00Z",
    "2023-02-29T00:00:00Z",
    "2024-02-30T00:00:00Z",
    "2024-04-31T00:00:00Z",
    "2024-00-01T00:00:00Z",
    "2024-13-01T00:00:00Z",
    "2024-05-00T00:00:00Z",
    "2024-05-32T00:00:00Z",
    "2024-05-01T24:00:00Z",
    "2024-05-01T23:60:00Z",
    "2024-05-01T23:59:60Z",
    "2024-05-01t10:00:00Z",
    "2024-05-01T10:00:00z",
    "2024-05-01 10:00:00Z",
    "2024/05/01T10:00:00Z",
    "2024-05-01T10.00.00Z",
    "2024-5-01T10:00:00Z",
    "2024-05-1T10:00:00Z",
    "2024-05-01T1:00:00Z",
    "2024-05-01T10:0:00Z",
    "2024-05-01T10:00:0Z",
    "24-05-01T10:00:00Z",
    "2024-05-01T10:00:00.Z",
    "2024-05-01T10:00:00.1234567890Z",
    "2024-05-01T10:00:00,5Z",
    "2024-05-01T10:00:00.5",
    "2024-05-01T10:00:00.5x",
    "2024-05-01T10:00:00+24:00",
    "2024-05-01T10:00:00-24:00",
    "2024-05-01T10:00:00+2400",
    "2024-05-01T10:00:00+23:60",
    "2024-05-01T10:00:00+02",
    "2024-05-01T10:00:00+2:00",
    "2024-05-01T10:00:00+02:0",
    "2024-05-01T10:00:00+02:00:00",
    "2024-05-01T10:00:00 02:00",
    "2024-05-01T10:00:00+02-00",
    "2024-05-01T10:00:00Z ",
    " 2024-05-01T10:00:00Z",
    "2024-05-01T10:00:00ZZ",
    "2024-05-01T10:00:00Z+02:00",
    "+024-05-01T10:00:00Z",
    "２024-05-01T10:00:00Z",
];

#[test]
fn texts_that_are_refused(rt: HostRuntime) {
    assert_eq!(rt; first_read(REFUSED), None);
}

/// The first text that is read.
fn first_read(texts: &[&'static str]) -> Option<&'static str> {
    for text in texts {
        if moment_of_text(text).is_some() {
            return Some(text);
        }
    }
    None
}

#[test]
fn random_moments_come_back(rt: HostRuntime) {
    assert_eq!(rt; first_lost(10_000), None);
}

/// The first of so many random moments whose text is not read as it.
fn first_lost(count: u32) -> Option<Moment> {
    let mut state: u64 = 20_241_127;
    for _ in 0..count {
        state = state
            .wrapping_mul(6_364_136_223_846_793_005)
            .wrapping_add(1_442_695_040_888_963_407);
        let moment = (state >> 20) % (LAST_MOMENT + 1);
        if moment_of_text(text_of_moment(moment).as_str()) != Some(moment) {
            return Some(moment);
        }
    }
    None
}
