//! Texts without their case.
ghost use Rattle.std.specs.Prelude.{◌≡◌, ◌<◌, ◌≤◌, ◌++◌, ◌==◌, ◌+◌, if◌then◌else◌, ℕ, map, length, slice_index, IfOk, OnOk, encode_utf8, encode_utf8_all};
ghost use Rattle.std.specs.Char.{to_ascii_lowercase};
ghost use Rattle.std.specs.Int.{w64, trailing_zeros};
ghost use Rattle.ucd_case.specs.CaseFolding.{full_fold};
ghost use Rattle.news_types.specs.Conditions.{folded};

use crate::near::put_near;
use news_types::Memory;
use std::alloc::Global;
use std::simd::prelude::*;
use ucd_case::full_folding;

/// The text without its case, by full case folding. What stands at the front is folded in place, as far as it can be, and behind it a
/// run of ASCII at once, and else character by character.
pub(crate) fn folded_text(alloc: Global, text: &str) -> Result<Vec<u8>, Memory>
    ensures { IfOk result (λ bytes. bytes.items ≡ folded text.now) }
{
    let mut out = Vec::with_capacity(alloc, text.len())?;
    let mut rest = put_near(&mut out, text)?;
    while !rest.is_empty() {
        rest = put_front(&mut out, rest)?;
    }
    Ok(out)
}

/// Puts the ASCII at the front and the character behind it, without their case, behind `out`, and answers the rest.
fn put_front<'a>(out: &mut Vec<u8>, text: &'a str) -> Result<&'a str, Memory>
    ensures rest { IfOk result (λ rest. out.new.items ++ folded rest.now ≡ out.old.items ++ folded text.now) }
    ensures shorter { IfOk result (λ rest. 0 < length text.now → length rest.now < length text.now) }
{
    let len = ascii_len(text.as_bytes());
    put_lower(out, &text.as_bytes()[..len])?;
    put_first(out, &text[len..])
}

/// How many bytes at the front are ASCII.
#[inline(always)]
pub(crate) fn ascii_len(text: &[u8]) -> usize
    ensures within { result ≤ length text.now }
    ensures ascii { (k : ℕ) → k < result → slice_index text.now k < 128 }
    ensures ends { result < length text.now → 128 ≤ slice_index text.now result }
{
    let mut len = past_ascii(text);
    while len < text.len() && text[len] < 128 {
        len += 1;
    }
    len
}

/// Goes on past ASCII, 32 bytes at once, to what is none or to the last ones.
#[inline(always)]
fn past_ascii(text: &[u8]) -> usize
    ensures within { result ≤ length text.now }
    ensures ascii { (k : ℕ) → k < result → slice_index text.now k < 128 }
{
    let mut at = 0;
    while 32 <= text.len() - at {
        let run = ascii_run(text, at);
        at += run;
        if run < 32 {
            return at;
        }
    }
    at
}

/// How many of the 32 bytes at a place stand before the first of them that is not ASCII.
#[inline(always)]
fn ascii_run(text: &[u8], at: usize) -> usize
    requires { at + 32 ≤ length text.now }
    ensures within { result ≤ 32 }
    ensures ascii { (k : ℕ) → at ≤ k → k < at + result → slice_index text.now k < 128 }
{
    let high = u8x32::from_slice(&text[at..]).simd_ge(u8x32::splat(128));
    lowest_bit(high.to_bitmask())
}

/// The place of the lowest bit, or 32 where there is none.
#[inline(always)]
fn lowest_bit(bits: u64) -> usize
    ensures { result ≡ if bits == 0 then 32 else trailing_zeros w64 bits }
{
    if bits == 0 {
        32
    } else {
        bits.trailing_zeros() as usize
    }
}

/// Puts ASCII without its case behind `out`.
pub(crate) fn put_lower(out: &mut Vec<u8>, text: &[u8]) -> Result<(), Memory>
    ensures { OnOk result (out.new.items ≡ out.old.items ++ map to_ascii_lowercase text.now) }
{
    let start = out.len();
    out.extend_from_slice(text)?;
    out[start..].make_ascii_lowercase();
    Ok(())
}

/// Puts the first character without its case behind `out`, if there is one, and answers the rest.
fn put_first<'a>(out: &mut Vec<u8>, text: &'a str) -> Result<&'a str, Memory>
    ensures rest { IfOk result (λ rest. out.new.items ++ folded rest.now ≡ out.old.items ++ folded text.now) }
    ensures shorter { IfOk result (λ rest. 0 < length text.now → length rest.now < length text.now) }
    ensures no_longer { IfOk result (λ rest. length rest.now ≤ length text.now) }
{
    let mut characters = text.chars();
    match characters.next() {
        Some(character) => {
            put_folded(out, character)?;
            Ok(characters.as_str())
        }
        None => Ok(text),
    }
}

/// Puts a character without its case behind `out`.
fn put_folded(out: &mut Vec<u8>, character: char) -> Result<(), Memory>
    ensures { OnOk result (out.new.items ≡ out.old.items ++ encode_utf8_all (full_fold character)) }
{
    match full_folding(character) {
        [] => put_character(out, character),
        folding => put_characters(out, folding),
    }
}

/// Puts characters behind `out`.
fn put_characters(out: &mut Vec<u8>, characters: &[char]) -> Result<(), Memory>
    ensures { OnOk result (out.new.items ≡ out.old.items ++ encode_utf8_all characters.now) }
{
    for character in characters {
        put_character(out, *character)?;
    }
    Ok(())
}

/// Puts a character behind `out`.
fn put_character(out: &mut Vec<u8>, character: char) -> Result<(), Memory>
    ensures { OnOk result (out.new.items ≡ out.old.items ++ encode_utf8 character) }
{
    let mut spelled = [0; 4];
    let bytes = character.encode_utf8(&mut spelled).as_bytes();
    out.extend_from_slice(bytes)?;
    Ok(())
}
