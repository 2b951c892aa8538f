//! Where the first bytes stop being what they should be: each search answers how many bytes are
//! left from the first faulty byte on, 0 where the bytes end too soon.

ghost use Rattle.std.specs.Prelude.{◌≡◌, ◌<◌, ◌≤◌, length, take, IsTrue, IsUtf8, Some, None, true};
ghost use Rattle.news_types.specs.Names.{is_name};
ghost use Rattle.byte_formats.specs.Format.{scan_at, digit_step};
ghost use Rattle.byte_formats.specs.Fields.{name_step, utf8_step, due};
ghost use Rattle.byte_formats.specs.Gives.{Judges};

use crate::due::{Due, due_next};
use news_types::is_name_letter;

/// The fault of a number whose digits, of base 256, are at most these.
#[tactic(auto, unfolding(crate::specs::Format::scan_at))]
pub fn digits_fault(most: &[u8], bytes: &[u8]) -> Option<usize>
    ensures judges { Judges result (length most.now) bytes.now (scan_at digit_step (length most.now) (Some most.now) bytes.now) }
    ensures long { result ≡ None → length most.now ≤ length bytes.now }
{
    match most {
        [] => None,
        [digit, most @ ..] => match bytes {
            [] => Some(0),
            [byte, after @ ..] => {
                if *digit < *byte {
                    Some(bytes.len())
                } else if *byte < *digit {
                    end_fault(most.len(), after)
                } else {
                    digits_fault(most, after)
                }
            }
        },
    }
}

/// The fault of so many bytes, whichever they are.
fn end_fault(len: usize, bytes: &[u8]) -> Option<usize>
    ensures judges { Judges result len bytes.now (scan_at digit_step len None bytes.now) }
    ensures long { result ≡ None → len ≤ length bytes.now }
{
    if bytes.len() < len { Some(0) } else { None }
}

/// The fault of a name of so many bytes.
pub fn name_fault(len: usize, bytes: &[u8]) -> Option<usize>
    ensures judges { Judges result len bytes.now (scan_at name_step len true bytes.now) }
    ensures form { result ≡ None → 0 < len → len ≤ 32 → IsTrue (is_name (take len bytes.now)) }
    ensures long { result ≡ None → len ≤ length bytes.now }
{
    for i in 0..len {
        if i == bytes.len() {
            return Some(0);
        }
        if !is_name_letter(bytes[i]) {
            return Some(bytes.len() - i);
        }
    }
    None
}

/// The fault of a text of so many bytes.
pub fn utf8_fault(len: usize, bytes: &[u8]) -> Option<usize>
    ensures judges { Judges result len bytes.now (scan_at utf8_step len (due 0 128 191) bytes.now) }
    ensures utf8 { result ≡ None → IsUtf8 (take len bytes.now) }
    ensures long { result ≡ None → len ≤ length bytes.now }
{
    let mut due = Due {
        left: 0,
        least: 128,
        most: 191,
    };
    for i in 0..len {
        if i == bytes.len() {
            return Some(0);
        }
        match due_next(len - i - 1, due, bytes[i]) {
            Some(next) => due = next,
            None => return Some(bytes.len() - i),
        }
    }
    None
}
