//! Bytes as a line of text.

use std::alloc::{AllocError, Global};

/// What the next byte of a line is.
#[derive(Clone, Copy)]
enum Next {
    /// A byte of its own, or `^`.
    Plain,
    /// The letter of a control, or `x`.
    Letter,
    /// The first digit of a byte.
    High,
    /// The second digit.
    Low { high: u8 },
}

/// The bytes that a line stands for.
pub(crate) fn bytes_of(alloc: Global, line: &str) -> Result<Vec<u8>, AllocError> {
    let mut bytes = Vec::new(alloc);
    let mut next = Next::Plain;
    for byte in line.as_bytes() {
        next = take(&mut bytes, next, *byte)?;
    }
    Ok(bytes)
}

/// Takes a byte of the line.
fn take(bytes: &mut Vec<u8>, next: Next, byte: u8) -> Result<Next, AllocError> {
    match next {
        Next::Plain if byte == b'^' => Ok(Next::Letter),
        Next::Letter if byte == b'x' => Ok(Next::High),
        Next::High => Ok(Next::Low { high: digit(byte) }),
        Next::Plain => put(bytes, byte),
        Next::Letter => put(bytes, byte & 31),
        Next::Low { high } => put(bytes, high << 4 | digit(byte)),
    }
}

/// Puts a byte behind the others.
fn put(bytes: &mut Vec<u8>, byte: u8) -> Result<Next, AllocError> {
    bytes.push(byte)?;
    Ok(Next::Plain)
}

/// What a digit of sixteen stands for.
fn digit(byte: u8) -> u8 {
    match byte {
        b'0'..=b'9' => byte - b'0',
        b'A'..=b'F' => byte - b'A' + 10,
        _ => 0,
    }
}
