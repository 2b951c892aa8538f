//! The key that each request has to have, where one is asked for.
use crate::reach::{head_of, value_of};

/// The answer to a request without the key, behind which its connection ends.
pub(crate) const REFUSAL: &[u8] =
    b"HTTP/1.1 403 \r\nContent-Type: application/json\r\nContent-Length: 0\r\n\r\n";

/// Whether the two are the same. Each byte is looked at, wherever they differ: how long it takes tells the length alone.
fn are_same(one: &[u8], other: &[u8]) -> bool {
    if one.len() != other.len() {
        return false;
    }
    let mut difference = 0u8;
    for (left, right) in one.iter().zip(other.iter()) {
        difference |= *left ^ *right;
    }
    difference == 0
}

/// Whether the first request of these bytes has the key: one line of its head is an `X-Key`, and has this value. A head that is
/// not there whole has none.
pub(crate) fn has_key(bytes: &[u8], key: &[u8]) -> bool {
    let Some(head) = head_of(bytes) else {
        return false;
    };
    let mut is_right = false;
    let mut is_named = false;
    for line in head.split(|byte| *byte == b'\n') {
        if let Some(value) = value_of(line, b"x-key") {
            if is_named {
                return false;
            }
            is_named = true;
            is_right = are_same(value.as_bytes(), key);
        }
    }
    is_right
}
