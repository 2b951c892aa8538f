//! Values of tests.
ghost use Rattle.std.specs.Prelude.{◌≡◌, ◌-◌, IfOk, length, slice_index};
ghost use Rattle.std.specs.Char.{is_ascii_digit};
ghost use Rattle.std.specs.List.{list_all};
ghost use Rattle.serde_json.specs.Find.{as_str};
ghost use Rattle.serde_json.specs.View.{view};
ghost use Rattle.archive_query.specs.Grammar as spec;
ghost use Rattle.archive_query.specs.Grammar.{text_said};
ghost use Rattle.archive_query.specs.Reading.{decimal_said, is_decimal};

use news_types::{Memory, Text};
use serde_json::Value;
use std::alloc::Global;

/// Whether the token goes from a quote to a quote.
fn is_quoted(token: &[u8]) -> bool
    ensures { result ≡ spec.is_quoted token.now }
{
    first_byte(token) == b'"' && last_byte(token) == b'"'
}

/// The first byte, or 0.
fn first_byte(token: &[u8]) -> u8
    ensures { result ≡ slice_index token.now 0 }
{
    match token {
        [] => 0,
        [first, ..] => *first,
    }
}

/// The last byte, or 0.
fn last_byte(token: &[u8]) -> u8
    ensures { result ≡ slice_index token.now (length token.now - 1) }
{
    match token {
        [] => 0,
        [.., last] => *last,
    }
}

/// The text that a JSON text says.
pub(crate) fn text_of(alloc: Global, token: &str) -> Result<Option<Text>, Memory>
    ensures { IfOk result (λ text. text ≡ text_said token.now) }
{
    if !is_quoted(token.as_bytes()) {
        return Ok(None);
    }
    match Value::from_str(alloc, token) {
        Ok(value) => copied_text(alloc, &value),
        Err(error) if error.is_memory() => Err(Memory),
        Err(_) => Ok(None),
    }
}

fn copied_text(alloc: Global, value: &Value) -> Result<Option<Text>, Memory>
    ensures { IfOk result (λ text. text ≡ as_str (view value.now)) }
{
    match value.as_str() {
        Some(text) => Ok(Some(Text::copy_of(alloc, text)?)),
        None => Ok(None),
    }
}

fn are_digits(token: &[u8]) -> bool
    ensures { result ≡ list_all is_ascii_digit token.now }
{
    token.iter().all(|byte| byte.is_ascii_digit())
}

/// Whether these are digits, of which the first is 0 only where it stands alone.
fn is_decimal(token: &[u8]) -> bool
    ensures { result ≡ is_decimal token.now }
{
    are_digits(token) && !(token.len() > 1 && first_byte(token) == b'0')
}

/// The number below 2^64 of which the token is the decimal.
pub(crate) fn number_of(token: &str) -> Option<u64>
    ensures { result ≡ decimal_said token.now }
{
    if is_decimal(token.as_bytes()) {
        token.parse().ok()
    } else {
        None
    }
}
