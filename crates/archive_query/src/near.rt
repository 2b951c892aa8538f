//! Characters whose folds have as many bytes, as nearly all of a wire's are: they are folded in place. Those of Latin letters and
//! punctuation are read off the code, and others looked up.
ghost use Rattle.std.specs.Prelude.{◌≡◌, ◌≤◌, ◌++◌, ◌∷◌, map, length, take, drop, IfOk, IsTrue, IsFalse, encode_utf8, encode_utf8_all};
ghost use Rattle.std.specs.Char.{to_ascii_lowercase, len_utf8};
ghost use Rattle.ucd_case.specs.CaseFolding.{full_fold};
ghost use Rattle.news_types.specs.Conditions.{folded};
ghost use Rattle.archive_query.specs.Near.{IsMended, is_capital, stays};

use crate::folds::{ascii_len, put_lower};
use news_types::Memory;
use ucd_case::full_folding;

/// Puts the characters at the front without their case behind `out`, for as long as they are folded in place, and answers the rest.
pub(crate) fn put_near<'a>(out: &mut Vec<u8>, text: &'a str) -> Result<&'a str, Memory>
    ensures { IfOk result (λ rest. out.new.items ++ folded rest.now ≡ out.old.items ++ folded text.now) }
{
    let start = out.len();
    put_lower(out, text.as_bytes())?;
    let rest = mend(text, &mut out[start..]);
    out.truncate(out.len() - rest.len());
    Ok(rest)
}

/// Mends a text in lower case by ASCII's rules to one without its case, and answers from which character on it did not.
fn mend<'a>(text: &'a str, into: &mut [u8]) -> &'a str
    requires lower { into.now ≡ map to_ascii_lowercase text.now }
    ensures { IsMended text.now into.new result.now }
{
    let mut rest = text;
    let mut left = text.len() + 1;
    while rest.len() < left {
        left = rest.len();
        rest = mend_front(rest, &mut into[text.len() - left..]);
    }
    rest
}

/// Mends the ASCII at the front and the character behind it, and answers the rest.
fn mend_front<'a>(text: &'a str, into: &mut [u8]) -> &'a str
    requires lower { into.now ≡ map to_ascii_lowercase text.now }
    ensures { IsMended text.now into.new result.now }
{
    let len = ascii_len(text.as_bytes());
    mend_first(&text[len..], &mut into[len..])
}

/// Mends the first character, if there is one and it is folded in place, and answers the rest.
fn mend_first<'a>(text: &'a str, into: &mut [u8]) -> &'a str
    requires lower { into.now ≡ map to_ascii_lowercase text.now }
    ensures { IsMended text.now into.new result.now }
{
    let mut characters = text.chars();
    match characters.next() {
        Some(character) if mend_character(character, into) => characters.as_str(),
        _ => text,
    }
}

/// Mends a character, and answers whether it is one that is folded in place. Latin capitals fold to the letter 32 behind them, and a
/// sharp s to two letters s.
#[inline(always)]
fn mend_character(character: char, into: &mut [u8]) -> bool
    requires long { len_utf8 character ≤ length into.now }
    requires lower { take (len_utf8 character) into.now ≡ map to_ascii_lowercase (encode_utf8 character) }
    ensures mended { IsTrue result → into.new ≡ encode_utf8_all (full_fold character) ++ drop (len_utf8 character) into.old }
    ensures same { IsFalse result → into.new ≡ into.old }
{
    let code = character as u32;
    if is_capital(code) {
        put_pair(into, 0xC3, (code - 0x20) as u8);
        return true;
    }
    if code == 0xDF {
        put_pair(into, b's', b's');
        return true;
    }
    if stays(code) {
        return true;
    }
    mend_other(character, into)
}

/// Mends one of the other characters by its folding, if that has as many bytes, and answers whether it has.
fn mend_other(character: char, into: &mut [u8]) -> bool
    requires long { len_utf8 character ≤ length into.now }
    requires lower { take (len_utf8 character) into.now ≡ map to_ascii_lowercase (encode_utf8 character) }
    ensures mended { IsTrue result → into.new ≡ encode_utf8_all (full_fold character) ++ drop (len_utf8 character) into.old }
    ensures same { IsFalse result → into.new ≡ into.old }
{
    match full_folding(character) {
        [] => character as u32 >= 0x80,
        [folded] => put_over(*folded, character.len_utf8(), into),
        _ => false,
    }
}

/// Puts a character over so many bytes, if it has as many, and answers whether it has.
fn put_over(character: char, len: usize, into: &mut [u8]) -> bool
    requires { len ≤ length into.now }
    ensures put { IsTrue result → into.new ≡ encode_utf8 character ++ drop len into.old }
    ensures same { IsFalse result → into.new ≡ into.old }
{
    let mut spelled = [0; 4];
    let bytes = character.encode_utf8(&mut spelled).as_bytes();
    if bytes.len() != len {
        return false;
    }
    into[..len].copy_from_slice(bytes);
    true
}

/// Puts two bytes over the first two.
#[inline(always)]
fn put_pair(into: &mut [u8], first: u8, second: u8)
    requires long { 2 ≤ length into.now }
    ensures { into.new ≡ first ∷ second ∷ drop 2 into.old }
{
    into[0] = first;
    into[1] = second;
}

/// Whether it is a capital of U+00C0 to U+00DE.
#[inline(always)]
fn is_capital(code: u32) -> bool
    ensures { result ≡ is_capital code }
{
    code >= 0xC0 && code < 0xDF && code != 0xD7
}

/// Whether it is one of U+0080 to U+00FF that is no capital, no sharp s and no micro sign, or one of U+2000 to U+20FF.
#[inline(always)]
fn stays(code: u32) -> bool
    ensures { result ≡ stays code }
{
    code >= 0x80 && code < 0x100 && !is_capital(code) && code != 0xDF && code != 0xB5
        || code >= 0x2000 && code < 0x2100
}
