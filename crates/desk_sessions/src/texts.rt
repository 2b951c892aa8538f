//! Texts that stand for bytes: `\` and two hexadecimal digits are one byte.

use std::alloc::{AllocError, Global};
use std::io::{self, ErrorKind};

/// That a line is of no form.
pub(crate) fn invalid() -> io::Error {
    io::Error::from(ErrorKind::InvalidInput)
}

pub(crate) fn number_of(text: &str) -> io::Result<u64> {
    match text.parse() {
        Ok(number) => Ok(number),
        Err(_) => Err(invalid()),
    }
}

/// The bytes that a text stands for.
pub(crate) fn bytes_of(alloc: Global, text: &str) -> io::Result<Vec<u8>> {
    let mut bytes = Vec::new(alloc);
    let mut pieces = text.split('\\');
    if let Some(piece) = pieces.next() {
        bytes.extend_from_slice(piece.as_bytes())?;
    }
    for piece in pieces {
        let Some((digits, rest)) = piece.split_at_checked(2) else {
            return Err(invalid());
        };
        let Ok(byte) = u8::from_str_radix(digits, 16) else {
            return Err(invalid());
        };
        bytes.push(byte)?;
        bytes.extend_from_slice(rest.as_bytes())?;
    }
    Ok(bytes)
}

/// The text that stands for these bytes.
pub(crate) fn text_of(alloc: Global, bytes: &[u8]) -> Result<String, AllocError> {
    let mut text = String::new(alloc);
    for byte in bytes {
        match byte {
            b'\\' => text.push_str("\\5c")?,
            b' '..=b'~' => text.push(*byte as char)?,
            _ => write!(text, "\\{byte:02x}")?,
        }
    }
    Ok(text)
}

/// These bytes with others put into their places: `PLACE TEXT`, and more of these behind a `;`.
pub(crate) fn patched(alloc: Global, bytes: &[u8], patches: &str) -> io::Result<Vec<u8>> {
    let mut patched = bytes.to_vec(alloc)?;
    for patch in patches.split(';') {
        let Some((place, text)) = patch.split_once(' ') else {
            return Err(invalid());
        };
        let put = bytes_of(alloc, text)?;
        patched = with_bytes_at(alloc, &patched, number_of(place)? as usize, &put)?;
    }
    Ok(patched)
}

/// These bytes with others from a place on.
fn with_bytes_at(alloc: Global, bytes: &[u8], place: usize, put: &[u8]) -> io::Result<Vec<u8>> {
    let Some((front, there)) = bytes.split_at_checked(place) else {
        return Err(invalid());
    };
    let mut with = front.to_vec(alloc)?;
    with.extend_from_slice(put)?;
    if let Some((_, behind)) = there.split_at_checked(put.len()) {
        with.extend_from_slice(behind)?;
    }
    Ok(with)
}
