//! Fields of a line: a name or a decimal number that ends at a byte, and given bytes.

ghost use Rattle.std.specs.Prelude.{◌≡◌, ◌<◌, ◌≤◌, ◌==◌, ◌&&◌, nat_lt, length, take, drop, IfOk, IsTrue, Ok, None};
ghost use Rattle.news_types.specs.Names.{is_name, is_name_byte};
ghost use Rattle.byte_formats.specs.Format.{scan_at};
ghost use Rattle.byte_formats.specs.Until.{word_at, word_step, numeral_at, numeral_step, literal_step};
ghost use Rattle.byte_formats.specs.Gives.{Judges, GivesWord, GivesNumber, IsMove};

use news_types::is_name_letter;

/// How many bytes the name has that a space ends, or else how many bytes are left from the fault on.
#[tactic(auto, unfolding(crate::specs::Until::word_at))]
pub fn word_end(bytes: &[u8]) -> Result<usize, usize>
    ensures word { GivesWord result bytes.now (word_at bytes.now) }
    ensures form { IfOk result (λ n. IsTrue (is_name (take n bytes.now))) }
    ensures long { IfOk result (λ n. n < length bytes.now) }
{
    for (i, byte) in bytes.iter().enumerate() {
        if ends_word(i, *byte) {
            return Ok(i);
        }
        if !continues_word(i, *byte) {
            return Err(bytes.len() - i);
        }
    }
    Err(0)
}

/// Whether the byte ends a name of so many bytes.
fn ends_word(len: usize, byte: u8) -> bool
    ensures { result ≡ (byte == 32 && nat_lt 0 len) }
{
    byte == b' ' && len > 0
}

/// Whether a name of so many bytes goes on with the byte.
fn continues_word(len: usize, byte: u8) -> bool
    ensures { result ≡ (is_name_byte byte && nat_lt len 32) }
{
    is_name_letter(byte) && len < 32
}

/// What a byte does to a decimal number.
pub enum Move {
    /// It goes on with this value.
    On(u32),
    /// It ends with this value.
    End(u32),
    /// No such number goes on so.
    Refused,
}

/// What a byte does to the value so far: nothing yet before the first digit.
fn numeral_move(stop: u8, least: u32, most: u32, value: Option<u32>, byte: u8) -> Move
    ensures { IsMove result value (numeral_step stop least most value byte) }
{
    match value {
        None => match byte {
            b'1'..=b'9' if u32::from(byte - b'0') <= most => Move::On(u32::from(byte - b'0')),
            b'0' if least == 0 => Move::On(0),
            _ => Move::Refused,
        },
        Some(value) if byte == stop => Move::End(value),
        Some(value) => {
            if value == 0 || !matches!(byte, b'0'..=b'9') {
                return Move::Refused;
            }
            let next = u64::from(value) * 10 + u64::from(byte - b'0');
            if next <= u64::from(most) {
                Move::On(next as u32)
            } else {
                Move::Refused
            }
        }
    }
}

/// The decimal number that `stop` ends and how many digits it has, or else how many bytes are left
/// from the fault on.
#[tactic(auto, unfolding(crate::specs::Until::numeral_at))]
pub fn numeral_end(stop: u8, least: u32, most: u32, bytes: &[u8]) -> Result<(u32, usize), usize>
    requires stop { stop < 48 }
    requires least { least ≤ 1 }
    requires some { least ≤ most }
    ensures number { GivesNumber result bytes.now (numeral_at stop least most bytes.now) }
    ensures long { IfOk result (λ found. found.1 < length bytes.now) }
{
    let mut value = None;
    for (i, byte) in bytes.iter().enumerate() {
        match numeral_move(stop, least, most, value, *byte) {
            Move::On(next) => value = Some(next),
            Move::End(value) => return Ok((value, i)),
            Move::Refused => return Err(bytes.len() - i),
        }
    }
    Err(0)
}

/// The fault of bytes that are to begin with these.
pub fn literal_fault(word: &[u8], bytes: &[u8]) -> Option<usize>
    ensures judges { Judges result (length word.now) bytes.now (scan_at literal_step (length word.now) word.now bytes.now) }
    ensures long { result ≡ None → length word.now ≤ length bytes.now }
{
    for (i, letter) in word.iter().enumerate() {
        if i == bytes.len() {
            return Some(0);
        }
        if bytes[i] != *letter {
            return Some(bytes.len() - i);
        }
    }
    None
}
