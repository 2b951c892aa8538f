//! Values, each read by its form.
ghost use Rattle.std.specs.Prelude.{◌≡◌, ◌≤◌, ◌<◌, ◌^◌, IfSome, List, ℕ};
ghost use Rattle.std.specs.Option.{option_map};
ghost use Rattle.serde_json.specs.View.{view, items_view};
ghost use Rattle.news_types.specs.Names.{Bytes};
ghost use Rattle.news_types.specs.Fits.{IsMoment};
ghost use Rattle.desk_lines.specs.Forms as form;
ghost use Rattle.desk_lines.specs.Forms.{among};

use news_types::{Moment, Name};
use release_rules::moment_of_text;
use serde_json::Value;

/// The last moment, the end of the year 9999.
const LAST_MOMENT: u64 = 253_402_300_799;

/// A whole number, at most so great.
pub(crate) fn whole_of(value: &Value, most: u64) -> Option<u64>
    ensures value { result ≡ form.whole most (view value.now) }
    ensures bound { IfSome result (λ n. n ≤ most) }
{
    match value.as_u64() {
        None => None,
        Some(n) => { if n <= most { Some(n) } else { None } }
    }
}

/// A text of at most so many bytes.
pub(crate) fn text_of(value: &Value, limit: usize) -> Option<&str>
    ensures value { option_map (λ text. text.now) result ≡ form.text limit (view value.now) }
{
    match value.as_str() {
        None => None,
        Some(text) => {
            if text.len() <= limit {
                Some(text)
            } else {
                None
            }
        }
    }
}

/// A name.
pub(crate) fn name_of(value: &Value) -> Option<Name>
    ensures { result ≡ form.name (view value.now) }
{
    match value.as_str() {
        None => None,
        Some(text) => Name::read(text),
    }
}

/// A moment: its seconds, or a text that names it.
pub(crate) fn moment_of(value: &Value) -> Option<Moment>
    ensures value { result ≡ form.moment (view value.now) }
    ensures bound { IfSome result IsMoment }
{
    match whole_of(value, LAST_MOMENT) {
        Some(moment) => Some(moment),
        None => match value.as_str() {
            None => None,
            Some(text) => moment_of_text(text),
        },
    }
}

/// A value of which each word is one.
pub(crate) trait Word: Drop {
    ghost words: { List (Bytes × Self) };

    /// The value of a word.
    fn of(word: &str) -> Option<Self>
        ensures { result ≡ among words word.now };
}

/// One of these words.
pub(crate) fn word_of<W: Word>(value: &Value) -> Option<W>
    ensures { result ≡ form.word W.words (view value.now) }
{
    match value.as_str() {
        None => None,
        Some(word) => W::of(word),
    }
}

/// Words that each stand for a bit.
pub(crate) trait Bits {
    ghost words: { List (Bytes × ℕ) };

    ghost width: { ℕ };

    /// The bit of a word.
    fn bit(word: &str) -> Option<u16>
        ensures value { result ≡ among words word.now }
        ensures bound { IfSome result (λ bit. bit < 2 ^ width) };

    ghost narrow: { width ≤ 16 };
}

/// The bit of one of these words.
fn bit_of<B: Bits>(value: &Value) -> Option<u16>
    ensures value { result ≡ form.word B.words (view value.now) }
    ensures bound { IfSome result (λ bit. bit < 2 ^ B.width) }
{
    match value.as_str() {
        None => None,
        Some(word) => B::bit(word),
    }
}

/// The bits of a list of these words.
pub(crate) fn bits_of<B: Bits>(list: &Vec<Value>) -> Option<u16>
    ensures value { result ≡ form.bits_from B.words 0 (items_view list.now.items) }
    ensures bound { IfSome result (λ bits. bits < 2 ^ B.width) }
{
    let mut bits: u16 = 0;
    for value in list {
        bits |= bit_of::<B>(value)?;
    }
    Some(bits)
}
