//! The fields of a message.

ghost use Rattle.std.specs.Prelude.{◌≡◌, ◌++◌, ◌≤◌, ◌*◌, IfOk, [], codes, length, take};
ghost use Rattle.text7901.specs.Fields.{ends_field, fitting, incoming, story_of, named, urgency, behind_urgency, category_in, slugline, headline, body, trim, lines_of, source, number, info, head, text};

use crate::bytes::{
    ETX, STX, first_bytes, first_line, fitting_text, is_short, split_around, split_digits,
    split_letters, trimmed, utf8_text, with_lf, without_last_lf,
};
use news_types::{Incoming, Media, Memory, PubStatus, Story, Text};
use std::alloc::Global;

/// The most bytes of an identity.
const LONGEST_IDENTITY: usize = 256;
/// The most bytes of post-text information that count.
const MOST_INFO: usize = 200;

/// What the bytes of a message say, between its SOH and its end.
pub fn incoming_of(alloc: Global, message: &[u8]) -> Result<Incoming, Memory>
    ensures value { IfOk result (λ told. told ≡ incoming message.now) }
    ensures size { IfOk result (λ told. length told.story.body ≤ 2 * length message.now) }
{
    let (source, rest) = split_letters(message, 8);
    let (number, rest) = split_digits(rest, 8);
    let (head, rest) = split_around(rest, STX);
    let (text, info) = split_around(rest, ETX);
    let (_, slug) = split_around(head, b'\n');
    Ok(Incoming {
        identity: identity_text(alloc, source, number, info)?,
        created: 0,
        embargo: 0,
        status: PubStatus::Usable,
        story: story(alloc, first_line(head), trimmed(slug), text)?,
    })
}

/// Source, number, `@` and the post-text information.
fn identity_text(alloc: Global, source: &[u8], number: &[u8], info: &[u8]) -> Result<Text, Memory>
    ensures { IfOk result (λ told. told ≡ fitting 256 (source.now ++ number.now ++ codes "@" ++ trim (take 200 info.now))) }
{
    let mut named = Vec::from_slice(alloc, source)?;
    named.extend_from_slice(number)?;
    named.push(b'@')?;
    named.extend_from_slice(trimmed(first_bytes(info, MOST_INFO)))?;
    fitting_text(alloc, LONGEST_IDENTITY, named.as_slice())
}

/// The story with this header line, slug part and text.
fn story(alloc: Global, line: &[u8], slug: &[u8], text: &[u8]) -> Result<Story, Memory>
    ensures value { IfOk result (λ told. told ≡ story_of line.now slug.now (lines_of text.now)) }
    ensures size { IfOk result (λ told. length told.body ≤ 2 * length text.now) }
{
    let lines = with_lf(alloc, text)?;
    story_of(alloc, line, slug, without_last_lf(lines.as_slice()))
}

/// The story with this header line, slug part and lines.
fn story_of(alloc: Global, line: &[u8], slug: &[u8], lines: &[u8]) -> Result<Story, Memory>
    ensures value { IfOk result (λ told. told ≡ story_of line.now slug.now lines.now) }
    ensures size { IfOk result (λ told. length told.body ≤ 2 * length lines.now) }
{
    let (urgency, rest) = urgency_of(line);
    let slugline = slugline_text(alloc, slug)?;
    let headline = headline_text(alloc, lines)?;
    let category = utf8_text(alloc, category_of(rest))?;
    let body = body_text(alloc, lines)?;
    Ok(Story {
        kind: Media::Text,
        urgency,
        slugline,
        headline,
        byline: empty(alloc),
        language: empty(alloc),
        category,
        body,
        html: false,
        copyright: empty(alloc),
    })
}

/// A text of no characters.
fn empty(alloc: Global) -> Text
    ensures { result ≡ [] }
{
    Text::of(String::new(alloc))
}

/// The urgency, 0 where there is none, and what follows it: nothing that counts where there is none.
fn urgency_of(line: &[u8]) -> (u8, &[u8])
    ensures value { result.0 ≡ urgency line.now }
    ensures rest { result.1.now ≡ behind_urgency line.now }
{
    match line {
        [b' ', digit @ b'1'..=b'9', rest @ ..] if ends_field(rest) => (*digit - b'0', rest),
        _ => (0, &[]),
    }
}

/// The letters of the category, which follows the urgency.
fn category_of(line: &[u8]) -> &[u8]
    ensures { result.now ≡ category_in line.now }
{
    let [b' ', rest @ ..] = line else {
        return &[];
    };
    let (letters, rest) = split_letters(rest, 3);
    if ends_field(rest) { letters } else { &[] }
}

/// Whether a field may end before these bytes of its line.
fn ends_field(line: &[u8]) -> bool
    ensures { result ≡ ends_field line.now }
{
    match line {
        [first, ..] => *first == b' ',
        [] => true,
    }
}

/// The slugline, empty where it would be too long.
fn slugline_text(alloc: Global, slug: &[u8]) -> Result<Text, Memory>
    ensures { IfOk result (λ told. told ≡ slugline slug.now) }
{
    if is_short(slug) {
        utf8_text(alloc, slug)
    } else {
        Ok(empty(alloc))
    }
}

/// The first line, empty where it would be too long.
fn headline_text(alloc: Global, lines: &[u8]) -> Result<Text, Memory>
    ensures { IfOk result (λ told. told ≡ headline lines.now) }
{
    let (first, _) = split_around(lines, b'\n');
    if is_short(first) {
        utf8_text(alloc, first)
    } else {
        Ok(empty(alloc))
    }
}

/// What stands behind the first line, or all where that is too long for a headline.
fn body_text(alloc: Global, lines: &[u8]) -> Result<Text, Memory>
    ensures value { IfOk result (λ told. told ≡ body lines.now) }
    ensures size { IfOk result (λ told. length told ≤ 2 * length lines.now) }
{
    let (first, rest) = split_around(lines, b'\n');
    if is_short(first) {
        utf8_text(alloc, rest)
    } else {
        utf8_text(alloc, lines)
    }
}
