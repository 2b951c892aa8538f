//! Publications as they are written for a wire.

ghost use Rattle.std.specs.Prelude.{◌≡◌, ◌+◌, ◌<◌, ◌≤◌, ◌^◌, ◌++◌, length, codes, decimal, IfOk, OnOk};
ghost use Rattle.news_types.specs.Fits.{FitsStory};
ghost use Rattle.text7901.specs.Fields.{letter};
ghost use Rattle.text7901.specs.Written.{wire_byte, line_byte, line_text, body_text, padded, urgency_text, category_text, word_count, words_from, parts_words, kind_word, header, head_part, text_part, end_part, released, written};

use crate::bytes::{EOT, ETX, SOH, STX, is_letter};
use byte_formats::put_decimal;
use itoa::Buffer;
use news_types::{Bytes, Kind, Memory, Moment, Publication, Story, Text};
use release_rules::text_of_moment;
use std::alloc::{AllocError, Global};

/// The most words that a header line counts.
const MOST_WORDS: usize = 99_999;

/// A publication as it is written for the wire: SOH, its header line, slugline, STX, headline,
/// body, ETX, its release and EOT.
pub fn write(alloc: Global, publication: &Publication) -> Result<Bytes, Memory>
    ensures value { IfOk result (λ bytes. bytes ≡ written publication.now) }
    // a frame has room for it
    ensures size { FitsStory publication.now.story → IfOk result (λ bytes. length bytes ≤ 4_194_240) }
{
    let mut out = Vec::new(alloc);
    put_head(&mut out, publication)?;
    put_text(&mut out, &publication.story)?;
    put_end(&mut out, publication.release)?;
    Ok(Bytes::of(out))
}

/// Appends what stands before the text: SOH, the header line and the slugline.
#[tactic(auto, unfolding(crate::specs::Written::head_part))]
fn put_head(out: &mut Vec<u8>, publication: &Publication) -> Result<(), AllocError>
    ensures bytes { OnOk result (out.new.items ≡ out.old.items ++ head_part publication.now) }
    ensures number { OnOk result (publication.now.number < 2 ^ 32) }
{
    out.push(SOH)?;
    put_header(out, publication)?;
    out.extend_from_slice(b"\r\n")?;
    put_line(out, &publication.story.slugline)?;
    out.extend_from_slice(b"\r\n")
}

/// Appends STX, headline and body.
#[tactic(auto, unfolding(crate::specs::Written::text_part))]
fn put_text(out: &mut Vec<u8>, story: &Story) -> Result<(), AllocError>
    ensures { OnOk result (out.new.items ≡ out.old.items ++ text_part story.now) }
{
    out.push(STX)?;
    put_line(out, &story.headline)?;
    out.extend_from_slice(b"\r\n")?;
    put_body(out, &story.body)?;
    out.extend_from_slice(b"\r\n")
}

/// Appends ETX, the release and EOT.
#[tactic(auto, unfolding(crate::specs::Written::end_part))]
fn put_end(out: &mut Vec<u8>, release: Moment) -> Result<(), AllocError>
    ensures { OnOk result (out.new.items ≡ out.old.items ++ end_part release) }
{
    out.push(ETX)?;
    put_moment(out, release)?;
    out.push(EOT)?;
    Ok(())
}

fn put_moment(out: &mut Vec<u8>, moment: Moment) -> Result<(), AllocError>
    ensures { OnOk result (out.new.items ≡ out.old.items ++ released moment) }
{
    let text = text_of_moment(moment);
    out.extend_from_slice(text.as_str().as_bytes())?;
    Ok(())
}

/// Appends number, urgency, category, word count and kind.
#[tactic(auto, unfolding(crate::specs::Written::header))]
fn put_header(out: &mut Vec<u8>, publication: &Publication) -> Result<(), AllocError>
    ensures bytes { OnOk result (out.new.items ≡ out.old.items ++ header publication.now) }
    ensures number { OnOk result (publication.now.number < 2 ^ 32) }
{
    out.extend_from_slice(b"NWS")?;
    put_padded(out, publication.number)?;
    out.push(b' ')?;
    put_urgency(out, publication.story.urgency)?;
    out.push(b' ')?;
    put_category(out, &publication.story.category)?;
    out.push(b' ')?;
    put_decimal(out, word_count(publication.story.body.as_str().as_bytes()))?;
    out.push(b' ')?;
    out.extend_from_slice(kind_word(publication.kind))
}

/// Appends a number in at least four digits.
fn put_padded(out: &mut Vec<u8>, number: u32) -> Result<(), AllocError>
    ensures bytes { OnOk result (out.new.items ≡ out.old.items ++ padded number) }
    ensures number { OnOk result (number < 2 ^ 32) }
{
    let mut buffer = Buffer::new();
    let digits = buffer.format(number).as_bytes();
    for _ in 0..4usize.saturating_sub(digits.len()) {
        out.push(b'0')?;
    }
    out.extend_from_slice(digits)
}

/// Appends an urgency, 5 where none is given.
fn put_urgency(out: &mut Vec<u8>, urgency: u8) -> Result<(), AllocError>
    ensures { OnOk result (out.new.items ≡ out.old.items ++ urgency_text urgency) }
{
    let given = if urgency == 0 { 5 } else { urgency };
    put_decimal(out, u32::from(given))
}

/// Appends the letters of a category, `n` where it has none.
fn put_category(out: &mut Vec<u8>, category: &Text) -> Result<(), AllocError>
    ensures { OnOk result (out.new.items ≡ out.old.items ++ category_text category.now) }
{
    let before = out.len();
    for byte in category.as_str().as_bytes() {
        if is_letter(*byte) {
            out.push(*byte)?;
        }
    }
    if out.len() == before {
        out.push(b'n')?;
    }
    Ok(())
}

/// The number of words, at most 99999.
fn word_count(bytes: &[u8]) -> u32
    ensures { result ≡ word_count bytes.now }
{
    let mut inside = false;
    let mut count: usize = 0;
    for byte in bytes {
        let parts = parts_words(*byte);
        if !parts && !inside {
            count += 1;
        }
        inside = !parts;
    }
    count.min(MOST_WORDS) as u32
}

fn parts_words(byte: u8) -> bool
    ensures { result ≡ parts_words byte }
{
    matches!(byte, b' ' | b'\t' | b'\r' | b'\n')
}

fn kind_word(kind: Kind) -> &'static [u8]
    ensures { result.now ≡ kind_word kind }
{
    match kind {
        Kind::First => b"FIRST",
        Kind::Correct => b"CORRECTION",
        Kind::Kill => b"KILL",
        Kind::Recall => b"RECALL",
    }
}

/// The byte of a character: `?` where it has none, and for those that the wire itself uses.
fn wire_byte(letter: char) -> u8
    ensures { result ≡ wire_byte letter }
{
    let code = u32::from(letter);
    if code > 255 || (1..=4).contains(&code) {
        b'?'
    } else {
        code as u8
    }
}

/// Appends a slugline or a headline.
fn put_line(out: &mut Vec<u8>, text: &Text) -> Result<(), AllocError>
    ensures { OnOk result (out.new.items ≡ out.old.items ++ line_text text.now) }
{
    for letter in text.as_str().chars() {
        out.push(line_byte(letter))?;
    }
    Ok(())
}

fn line_byte(letter: char) -> u8
    ensures { result ≡ line_byte letter }
{
    match letter {
        '\r' | '\n' => b' ',
        _ => wire_byte(letter),
    }
}

/// Appends a body.
fn put_body(out: &mut Vec<u8>, text: &Text) -> Result<(), AllocError>
    ensures { OnOk result (out.new.items ≡ out.old.items ++ body_text text.now) }
{
    for letter in text.as_str().chars() {
        match letter {
            '\r' => {}
            '\n' => out.extend_from_slice(b"\r\n")?,
            _ => out.push(wire_byte(letter))?,
        }
    }
    Ok(())
}
