//! Parts of some bytes.

ghost use Rattle.std.specs.Prelude.{◌≡◌, ◌<◌, ◌≤◌, ◌==◌, ◌&&◌, ◌||◌, ◌*◌, nat_le, length, take, IfOk, IfSome};
ghost use Rattle.std.specs.List.{prefix_len, position, count_by};
ghost use Rattle.text7901.specs.Fields.{letter, digit, blank, begins_line, before, behind_byte, trim, trim_front, with_lf, first_line, without_last_lf, utf8, is_short, fitting, lead, past};

use news_types::{Memory, Text};
use std::alloc::{AllocError, Global};

/// Begins a message.
pub const SOH: u8 = 1;
/// Begins its text.
pub const STX: u8 = 2;
/// Ends its text.
pub const ETX: u8 = 3;
/// Ends a message.
pub const EOT: u8 = 4;

/// The most bytes of a slugline or a headline.
const LONGEST_LINE: usize = 500;

pub fn is_letter(byte: u8) -> bool
    ensures { result ≡ letter byte }
{
    byte.is_ascii_alphabetic()
}

pub fn is_digit(byte: u8) -> bool
    ensures { result ≡ digit byte }
{
    byte.is_ascii_digit()
}

fn is_blank(byte: u8) -> bool
    ensures { result ≡ blank byte }
{
    byte == b' ' || byte == b'\r' || byte == b'\n'
}

/// How many letters these begin with.
fn leading_letters(bytes: &[u8]) -> usize
    ensures value { result ≡ prefix_len letter bytes.now }
    ensures bound { result ≤ length bytes.now }
{
    bytes.iter().take_while(|byte| is_letter(**byte)).count()
}

/// How many digits these begin with.
fn leading_digits(bytes: &[u8]) -> usize
    ensures value { result ≡ prefix_len digit bytes.now }
    ensures bound { result ≤ length bytes.now }
{
    bytes.iter().take_while(|byte| is_digit(**byte)).count()
}

/// The leading letters, of which at most so many count, and what follows them.
pub fn split_letters(bytes: &[u8], most: usize) -> (&[u8], &[u8])
    ensures front { result.0.now ≡ lead letter most bytes.now }
    ensures back { result.1.now ≡ past letter most bytes.now }
{
    bytes.split_at(leading_letters(first_bytes(bytes, most)))
}

/// The leading digits, of which at most so many count, and what follows them.
pub fn split_digits(bytes: &[u8], most: usize) -> (&[u8], &[u8])
    ensures front { result.0.now ≡ lead digit most bytes.now }
    ensures back { result.1.now ≡ past digit most bytes.now }
{
    bytes.split_at(leading_digits(first_bytes(bytes, most)))
}

/// The place of the first such byte.
pub fn place_of(bytes: &[u8], stop: u8) -> Option<usize>
    ensures place { result ≡ position (λ b. b == stop) bytes.now }
    ensures bound { IfSome result (λ i. i < length bytes.now) }
{
    bytes.iter().position(|byte| *byte == stop)
}

/// The first bytes, at most so many.
pub fn first_bytes(bytes: &[u8], most: usize) -> &[u8]
    ensures { result.now ≡ take most bytes.now }
{
    &bytes[..most.min(bytes.len())]
}

/// What stands before and behind the first such byte: all and nothing where there is none.
pub fn split_around(bytes: &[u8], stop: u8) -> (&[u8], &[u8])
    ensures front { result.0.now ≡ before stop bytes.now }
    ensures back { result.1.now ≡ behind_byte stop bytes.now }
{
    match place_of(bytes, stop) {
        Some(i) => (&bytes[..i], &bytes[i + 1..]),
        None => (bytes, &[]),
    }
}

/// Without the spaces, CR and LF at both ends.
pub fn trimmed(bytes: &[u8]) -> &[u8]
    ensures { result.now ≡ trim bytes.now }
{
    let mut rest = front_trimmed(bytes);
    while let [front @ .., last] = rest {
        if !is_blank(*last) {
            break;
        }
        rest = front;
    }
    rest
}

fn front_trimmed(bytes: &[u8]) -> &[u8]
    ensures { result.now ≡ trim_front bytes.now }
{
    let mut rest = bytes;
    while let [first, tail @ ..] = rest {
        if !is_blank(*first) {
            break;
        }
        rest = tail;
    }
    rest
}

/// The first line, up to a CR LF or an LF.
pub fn first_line(bytes: &[u8]) -> &[u8]
    ensures { result.now ≡ first_line bytes.now }
{
    for (i, byte) in bytes.iter().enumerate() {
        if ends_line(*byte, &bytes[i + 1..]) {
            return &bytes[..i];
        }
    }
    bytes
}

/// Whether a line ends before this byte and what follows it.
fn ends_line(byte: u8, rest: &[u8]) -> bool
    ensures { result ≡ (byte == 10 || (byte == 13 && begins_line rest.now)) }
{
    byte == b'\n' || is_cr_of_line(byte, rest)
}

/// Whether the byte is a CR before an LF.
fn is_cr_of_line(byte: u8, rest: &[u8]) -> bool
    ensures { result ≡ (byte == 13 && begins_line rest.now) }
{
    byte == b'\r' && begins_line(rest)
}

fn begins_line(bytes: &[u8]) -> bool
    ensures { result ≡ begins_line bytes.now }
{
    match bytes {
        [first, ..] => *first == b'\n',
        [] => false,
    }
}

/// The bytes with LF for each CR LF.
pub fn with_lf(alloc: Global, bytes: &[u8]) -> Result<Vec<u8>, AllocError>
    ensures { IfOk result (λ lines. lines.items ≡ with_lf bytes.now) }
{
    let mut lines = Vec::with_capacity(alloc, bytes.len())?;
    for (i, byte) in bytes.iter().enumerate() {
        if !is_cr_of_line(*byte, &bytes[i + 1..]) {
            lines.push(*byte)?;
        }
    }
    Ok(lines)
}

/// Without one LF at the end.
pub fn without_last_lf(bytes: &[u8]) -> &[u8]
    ensures { result.now ≡ without_last_lf bytes.now }
{
    let [front @ .., last] = bytes else {
        return bytes;
    };
    if *last == b'\n' { front } else { bytes }
}

/// Whether they have at most 500 bytes as UTF-8.
pub fn is_short(bytes: &[u8]) -> bool
    ensures { result ≡ is_short bytes.now }
{
    utf8_len(bytes) <= LONGEST_LINE
}

/// How many bytes they have as UTF-8.
fn utf8_len(bytes: &[u8]) -> usize
    ensures { result ≡ length (utf8 bytes.now) }
{
    bytes.len() + two_byte_count(bytes)
}

/// How many of them have two bytes as UTF-8.
fn two_byte_count(bytes: &[u8]) -> usize
    ensures value { result ≡ count_by (λ b. nat_le 128 b) bytes.now }
    ensures bound { result ≤ length bytes.now }
{
    bytes.iter().filter(|byte| **byte >= 128).count()
}

/// The bytes as UTF-8.
pub fn utf8_text(alloc: Global, bytes: &[u8]) -> Result<Text, Memory>
    ensures value { IfOk result (λ text. text ≡ utf8 bytes.now) }
    ensures size { IfOk result (λ text. length text ≤ 2 * length bytes.now) }
{
    let mut string = String::with_capacity(alloc, bytes.len())?;
    for byte in bytes {
        string.push(char::from(*byte))?;
    }
    Ok(Text::of(string))
}

/// The characters from the front on that have at most so many bytes together as UTF-8.
pub fn fitting_text(alloc: Global, most: usize, bytes: &[u8]) -> Result<Text, Memory>
    ensures { IfOk result (λ text. text ≡ fitting most bytes.now) }
{
    let mut string = String::new(alloc);
    let mut room = most;
    for byte in bytes {
        let letter = char::from(*byte);
        if letter.len_utf8() > room {
            break;
        }
        room -= letter.len_utf8();
        string.push(letter)?;
    }
    Ok(Text::of(string))
}
