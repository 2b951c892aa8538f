//! Two digits, and a zone's offset, as texts of moments and of zones have them.
ghost use Rattle.std.specs.Prelude.{◌≡◌, ◌<◌, IfSome};
ghost use Rattle.jiff_core.specs.Calendar.{IsWithin};
ghost use Rattle.news_types.specs.Clock.{pair_number, clock_of};

/// Two digits as a number.
pub fn two_digits(tens: u8, ones: u8) -> Option<u8>
    ensures value { result ≡ pair_number tens ones }
    ensures below { IfSome result (λ n. n < 100) }
{
    if tens.is_ascii_digit() && ones.is_ascii_digit() {
        Some((tens - b'0') * 10 + (ones - b'0'))
    } else {
        None
    }
}

/// How many seconds a clock with this offset from UTC is ahead, to 23:59 before or behind it.
pub fn offset_seconds(sign: u8, hours: u8, minutes: u8) -> Option<i32>
    ensures value { result ≡ clock_of sign hours minutes }
    ensures bound { IfSome result (IsWithin 86_340) }
{
    if hours > 23 || minutes > 59 {
        return None;
    }
    let seconds = hours as i32 * 3600 + minutes as i32 * 60;
    match sign {
        b'+' => Some(seconds),
        b'-' => Some(-seconds),
        _ => None,
    }
}
