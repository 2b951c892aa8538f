//! Decimal numbers of up to 64 bits.

ghost use Rattle.std.specs.Prelude.{◌≡◌, ◌<◌, ◌≤◌, ◌+◌, length, take, drop, IfOk, IfErr};
ghost use Rattle.byte_formats.specs.Until.{numeral_at, numeral_step};
ghost use Rattle.byte_formats.specs.Gives.{Gives, GivesNumber, IsFault};
ghost use Rattle.record_lines.specs.Numerals.{IsMove, IsWithDigit};

use byte_formats::{Input, Stopped};

/// What a byte does to a decimal number.
pub enum Move {
    /// It goes on with this value.
    On(u64),
    /// It ends with this value.
    End(u64),
    /// No such number goes on so.
    Refused,
}

/// A number with one digit more, where that is at most `most`.
fn with_digit(value: u64, byte: u8, most: u64) -> Option<u64>
    requires low { 48 ≤ byte }
    requires high { byte ≤ 57 }
    ensures { IsWithDigit result value byte most }
{
    let digit = u64::from(byte - b'0');
    if digit > most || value > (most - digit) / 10 {
        return None;
    }
    Some(value * 10 + digit)
}

/// What a byte does to the value so far: nothing yet before the first digit.
fn numeral_move(stop: u8, least: u64, most: u64, value: Option<u64>, byte: u8) -> Move
    ensures { IsMove result value (numeral_step stop least most value byte) }
{
    match value {
        None => match byte {
            b'1'..=b'9' if u64::from(byte - b'0') <= most => Move::On(u64::from(byte - b'0')),
            b'0' if least == 0 => Move::On(0),
            _ => Move::Refused,
        },
        Some(value) if byte == stop => Move::End(value),
        Some(value) => {
            if value == 0 || !matches!(byte, b'0'..=b'9') {
                return Move::Refused;
            }
            match with_digit(value, byte, most) {
                Some(next) => Move::On(next),
                None => Move::Refused,
            }
        }
    }
}

/// The decimal number that `stop` ends and how many digits it has, or else how many bytes are left
/// from the fault on.
#[tactic(auto, unfolding(byte_formats::specs::Until::numeral_at))]
fn numeral_end(stop: u8, least: u64, most: u64, bytes: &[u8]) -> Result<(u64, usize), usize>
    requires stop { stop < 48 }
    requires least { least ≤ 1 }
    requires some { least ≤ most }
    ensures number { GivesNumber result bytes.now (numeral_at stop least most bytes.now) }
    ensures long { IfOk result (λ found. found.1 < length bytes.now) }
{
    let mut value = None;
    for (i, byte) in bytes.iter().enumerate() {
        match numeral_move(stop, least, most, value, *byte) {
            Move::On(next) => value = Some(next),
            Move::End(value) => return Ok((value, i)),
            Move::Refused => return Err(bytes.len() - i),
        }
    }
    Err(0)
}

/// A decimal number from `least`, which is 0 or 1, up to `most`, without leading zeros, and the byte
/// `stop` behind it, which is below the digits. It takes no memory.
pub fn decimal(input: &mut Input, stop: u8, least: u64, most: u64) -> Result<u64, Stopped>
    requires stop { stop < 48 }
    requires least { least ≤ 1 }
    requires some { least ≤ most }
    ensures gives { Gives result input.new (numeral_at stop least most input.old) }
    ensures calm { IfErr result IsFault }
{
    let rest = input.bytes(input.left())?;
    match numeral_end(stop, least, most, rest) {
        Ok((value, digits)) => {
            *input = Input::new(&rest[digits + 1..]);
            Ok(value)
        }
        Err(left) => Err(Stopped::Left(left)),
    }
}
