//! The characters of some bytes of a message.

ghost use Rattle.std.specs.Prelude.{◌≡◌, ◌++◌, IfOk, OnOk, map};
ghost use Rattle.std.specs.Str.{chars};
ghost use Rattle.agency_wires.specs.Characters.{windows_1252, joins, kept_as, cleaned, decoded};
ghost use Rattle.agency_wires.specs.Cleaning.{kept_before};

use std::alloc::{AllocError, Global};

/// The characters of Windows-1252 from 80 to 9F, as the Encoding Standard of the WHATWG has them.
/// The five bytes that have none there are controls.
const UPPER_ROW: [char; 32] = [
    '\u{20AC}', '\u{81}', '\u{201A}', '\u{192}', '\u{201E}', '\u{2026}', '\u{2020}', '\u{2021}',
    '\u{2C6}', '\u{2030}', '\u{160}', '\u{2039}', '\u{152}', '\u{8D}', '\u{17D}', '\u{8F}',
    '\u{90}', '\u{2018}', '\u{2019}', '\u{201C}', '\u{201D}', '\u{2022}', '\u{2013}', '\u{2014}',
    '\u{2DC}', '\u{2122}', '\u{161}', '\u{203A}', '\u{153}', '\u{9D}', '\u{17E}', '\u{178}',
];

/// The characters of some bytes: UTF-8 where they are UTF-8, else Windows-1252. Each line end is an
/// LF, and controls but the tab are left out.
pub fn decoded(alloc: Global, bytes: &[u8]) -> Result<Vec<char>, AllocError>
    ensures { IfOk result (λ told. told.items ≡ decoded bytes.now) }
{
    match str::from_utf8(bytes) {
        Ok(text) => cleaned_text(alloc, text),
        Err(_) => cleaned_windows_1252(alloc, bytes),
    }
}

/// What is kept of the characters of a text.
fn cleaned_text(alloc: Global, text: &str) -> Result<Vec<char>, AllocError>
    ensures { IfOk result (λ kept. kept.items ≡ cleaned (chars text.now)) }
{
    let mut kept = Vec::with_capacity(alloc, text.len())?;
    let mut characters = text.chars();
    while let Some(letter) = characters.next() {
        put_kept(&mut kept, letter, characters.as_str().as_bytes())?;
    }
    Ok(kept)
}

/// What is kept of bytes that are Windows-1252.
fn cleaned_windows_1252(alloc: Global, bytes: &[u8]) -> Result<Vec<char>, AllocError>
    ensures { IfOk result (λ kept. kept.items ≡ cleaned (map windows_1252 bytes.now)) }
{
    let mut kept = Vec::with_capacity(alloc, bytes.len())?;
    for (i, byte) in bytes.iter().enumerate() {
        put_kept(&mut kept, windows_1252(*byte), &bytes[i + 1..])?;
    }
    Ok(kept)
}

#[inline(always)]
fn windows_1252(byte: u8) -> char
    ensures { result ≡ windows_1252 byte }
{
    match byte {
        0x80..=0x9F => UPPER_ROW[usize::from(byte - 0x80)],
        _ => char::from(byte),
    }
}

/// Appends what is kept of a character that these bytes follow: an LF for each line end, and no
/// controls but the tab.
#[inline(always)]
fn put_kept(kept: &mut Vec<char>, letter: char, rest: &[u8]) -> Result<(), AllocError>
    ensures { OnOk result (kept.new.items ≡ kept.old.items ++ kept_before letter rest.now) }
{
    if letter == '\r' && joins(rest) {
        return Ok(());
    }
    if let Some(letter) = kept_as(letter) {
        kept.push(letter)?;
    }
    Ok(())
}

/// Whether these begin with an LF or a CR LF.
fn joins(rest: &[u8]) -> bool
    ensures { result ≡ joins rest.now }
{
    matches!(rest, [b'\n', ..] | [b'\r', b'\n', ..])
}

/// An LF for a line end, none for a control but the tab, else the character itself.
#[inline(always)]
fn kept_as(letter: char) -> Option<char>
    ensures { result ≡ kept_as letter }
{
    match letter {
        ' '..='~' => Some(letter),
        '\r' | '\n' => Some('\n'),
        '\t' => Some('\t'),
        _ if letter.is_control() => None,
        _ => Some(letter),
    }
}
