//! Texts of an item.
ghost use Rattle.std.specs.Prelude.{◌≡◌, ◌≤◌, IfOk, OnOk, IsTrue, length, option_map, string_bytes};
ghost use Rattle.std.specs.List.{list_all, prefix_len, suffix_len};
ghost use Rattle.std.specs.Result.{result_map_both};
ghost use Rattle.serde_json.specs.View.{view};
ghost use Rattle.agency_items.specs.Reading.{or_empty};
ghost use Rattle.agency_items.specs.Texts as said;

use crate::fault::{ItemFault, Property};
use crate::properties::property;
use news_types::{Memory, Text};
use serde_json::Value;
use std::alloc::{AllocError, Global};

/// The most bytes of a text that is cut.
const LONGEST_LINE: usize = 500;

/// The text of a property, if it is there and not empty.
pub(crate) fn text(object: &Value, name: Property) -> Result<Option<&str>, ItemFault>
    ensures { result_map_both (option_map (λ text. text.now)) (λ fault. fault) result ≡ said.text name (view object.now) }
{
    match property(object, name) {
        None => Ok(None),
        Some(found) => text_in(found.as_str(), name),
    }
}

/// A text that is not empty; what is no text is a fault of the property.
pub(crate) fn text_in(told: Option<&str>, property: Property) -> Result<Option<&str>, ItemFault>
    ensures { result_map_both (option_map (λ text. text.now)) (λ fault. fault) result ≡ said.text_in property (option_map (λ text. text.now) told.entry) }
{
    match told {
        None => Err(ItemFault::WrongType { property }),
        Some(text) => {
            if text.is_empty() {
                Ok(None)
            } else {
                Ok(Some(text))
            }
        }
    }
}

/// The text, where it has at most so many bytes.
pub(crate) fn within(text: &str, limit: usize, property: Property) -> Result<&str, ItemFault>
    ensures value { result_map_both (λ text. text.now) (λ fault. fault) result ≡ said.within limit property text.now }
    ensures bound { IfOk result (λ text. length text.now ≤ limit) }
{
    if text.len() <= limit {
        Ok(text)
    } else {
        Err(ItemFault::TooLong { property })
    }
}

/// The text, cut at the last whole character within 500 bytes.
pub(crate) fn cut(text: &str) -> &str
    ensures value { result.now ≡ said.cut text.now }
    ensures bound { length result.now ≤ 500 }
{
    if text.len() <= LONGEST_LINE {
        return text;
    }
    let (kept, _) = text.split_at(text.floor_char_boundary(LONGEST_LINE));
    kept
}

/// Whether two words are the same, whatever the case of their letters.
pub(crate) fn is_same_word(word: &[u8], other: &[u8]) -> bool
    ensures { result ≡ said.same_word word.now other.now }
{
    word.eq_ignore_ascii_case(other)
}

/// What stands behind the last colon; all where there is none.
pub(crate) fn behind_colon(text: &[u8]) -> &[u8]
    ensures { result.now ≡ said.behind_colon text.now }
{
    let (_, word) = text.split_at(text.len() - length_behind_colon(text));
    word
}

fn length_behind_colon(text: &[u8]) -> usize
    ensures value { result ≡ suffix_len said.is_no_colon text.now }
    ensures bound { result ≤ length text.now }
{
    text.iter()
        .rev()
        .take_while(|byte| is_no_colon(**byte))
        .count()
}

fn is_no_colon(byte: u8) -> bool
    ensures { result ≡ said.is_no_colon byte }
{
    byte != b':'
}

/// What stands before the first semicolon; all where there is none.
pub(crate) fn before_semicolon(text: &[u8]) -> &[u8]
    ensures { result.now ≡ said.before_semicolon text.now }
{
    let (front, _) = text.split_at(length_before_semicolon(text));
    front
}

fn length_before_semicolon(text: &[u8]) -> usize
    ensures value { result ≡ prefix_len said.is_no_semicolon text.now }
    ensures bound { result ≤ length text.now }
{
    text.iter()
        .take_while(|byte| is_no_semicolon(**byte))
        .count()
}

fn is_no_semicolon(byte: u8) -> bool
    ensures { result ≡ said.is_no_semicolon byte }
{
    byte != b';'
}

/// Whether a code has 1 to 3 letters and nothing else.
pub(crate) fn is_category(code: &[u8]) -> bool
    ensures value { result ≡ said.is_category code.now }
    ensures bound { IsTrue result → length code.now ≤ 3 }
{
    code.len() >= 1 && code.len() <= 3 && has_only_letters(code)
}

fn has_only_letters(code: &[u8]) -> bool
    ensures { result ≡ list_all said.is_letter code.now }
{
    code.iter().all(|byte| is_letter(*byte))
}

fn is_letter(byte: u8) -> bool
    ensures { result ≡ said.is_letter byte }
{
    byte.is_ascii_alphabetic()
}

/// Puts a text behind another one, with a mark between where neither is empty.
pub(crate) fn add_beside(told: &mut String, mark: &str, text: &str) -> Result<(), AllocError>
    ensures { OnOk result (string_bytes told.new ≡ said.beside mark.now (string_bytes told.old) text.now) }
{
    if told.is_empty() {
        return told.push_str(text);
    }
    if text.is_empty() {
        return Ok(());
    }
    told.push_str(mark)?;
    told.push_str(text)
}

/// A copy of a text, cut at the last whole character within 500 bytes; empty where it is missing.
pub(crate) fn cut_copy(alloc: Global, told: Option<&str>) -> Result<Text, Memory>
    ensures value { IfOk result (λ copied. copied ≡ said.cut (or_empty (option_map (λ text. text.now) told.entry))) }
    ensures bound { IfOk result (λ copied. length copied ≤ 500) }
{
    Text::copy_of(alloc, cut(or_empty(told)))
}

/// A text that may be missing.
pub(crate) fn or_empty(told: Option<&str>) -> &str
    ensures { result.now ≡ or_empty (option_map (λ text. text.now) told.entry) }
{
    match told {
        None => "",
        Some(text) => text,
    }
}
