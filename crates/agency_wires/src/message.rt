//! One message is read.

ghost use Rattle.std.specs.Prelude.{◌≡◌, ◌+◌, [], IfOk, Some, None, length, true};
ghost use Rattle.news_types.specs.Fits.{FitsIncoming};
ghost use Rattle.text7901.specs.Fields.{before, behind_byte};
ghost use Rattle.agency_wires.specs.Header.{header_line, slug};
ghost use Rattle.agency_wires.specs.Headline.{body};
ghost use Rattle.agency_wires.specs.Parts.{has};
ghost use Rattle.agency_wires.specs.Reading.{is_anpa, wrong_text, story_with, status_with, told_of, told, IsRead};

use crate::bytes::{ETX, STX, has, split_around};
use crate::characters::decoded;
use crate::fault::{What, WireFault};
use crate::header::{category_of, header_of, urgency_of};
use crate::headline::{body_of, headline_of};
use crate::held_words::has_held_word;
use crate::identity::identity_of;
use crate::parts::{
    first_characters, fitting_text, front_trimmed, is_within, next_line, split_line, trimmed,
    utf8_text,
};
use news_types::{Incoming, Media, Memory, Moment, PubStatus, Story, Text};
use std::alloc::Global;

/// The most bytes of a slugline and of a headline.
const LONGEST_LINE: usize = 500;
/// The most bytes of a body.
const LONGEST_BODY: usize = 524_288;
/// How many characters of a text are looked at for words that hold it back.
const LOOKED_AT: usize = 200;

/// Reads one message from its bytes between SOH and its end, on this day, a moment in seconds since
/// 1970.
///
/// # Errors
///
/// The first that holds of these: the header line does not begin with source and number, the text is
/// one of ANPA 1312, there is no STX, there is no ETX behind it, the body is too long.
pub fn read_message(alloc: Global, bytes: &[u8], day: Moment) -> Result<Incoming, WireFault>
    ensures value { IsRead (told day bytes.now) result }
    ensures fits { IfOk result FitsIncoming }
{
    let (head, rest) = split_around(bytes, STX);
    let (text, info) = split_around(rest, ETX);
    let head_told = decoded(alloc, head)?;
    let text_told = decoded(alloc, text)?;
    let info_told = decoded(alloc, info)?;
    let head = head_told.as_slice();
    let text = text_told.as_slice();
    let info = info_told.as_slice();
    read_parts(alloc, bytes, head, text, info, day)
}

/// Reads a message of which these are the characters before STX, of the text and behind ETX.
fn read_parts(
    alloc: Global,
    bytes: &[u8],
    head: &[char],
    text: &[char],
    info: &[char],
    day: Moment,
) -> Result<Incoming, WireFault>
    ensures value { IsRead (told_of bytes.now head.now text.now info.now day) result }
{
    let (line, slug) = split_head(head);
    let Some(header) = header_of(line) else {
        return Err(WireFault::Fault {
            at: 0,
            what: What::NoHeader,
        });
    };
    let headline = headline_of(alloc, text)?;
    let headline = headline.as_slice();
    let body = body_of(text, headline);
    if let Some(fault) = wrong_text(bytes, text, body) {
        return Err(fault);
    }
    let identity = identity_of(alloc, line, header, info, day)?;
    let story = story_with(alloc, header.rest, slug, headline, body)?;
    Ok(Incoming {
        identity,
        created: 0,
        embargo: 0,
        status: status_with(slug, headline, text),
        story,
    })
}

/// The header line and the slug part.
fn split_head(head: &[char]) -> (&[char], &[char])
    ensures line { result.0.now ≡ header_line head.now }
    ensures slug { result.1.now ≡ slug head.now }
{
    let (line, rest) = split_line(front_trimmed(head));
    (line, trimmed(rest))
}

/// What is wrong with a text that has this body.
fn wrong_text(bytes: &[u8], text: &[char], whole: &[char]) -> Option<WireFault>
    requires { whole.now ≡ body text.now }
    ensures { result ≡ wrong_text bytes.now text.now }
{
    let (head, rest) = split_around(bytes, STX);
    let behind_stx = head.len() as u64 + 1;
    let (at, what) = if is_anpa(text) {
        (behind_stx, What::NotThisForm)
    } else if !has(bytes, STX) {
        (bytes.len() as u64, What::NoText)
    } else if !has(rest, ETX) {
        (bytes.len() as u64, What::NoEnd)
    } else if !is_within(LONGEST_BODY, whole) {
        (behind_stx, What::TooLong)
    } else {
        return None;
    };
    Some(WireFault::Fault { at, what })
}

/// Whether the text is one of ANPA 1312.
fn is_anpa(text: &[char]) -> bool
    ensures { result ≡ is_anpa text.now }
{
    let (line, _) = next_line(text);
    has_letter(line, '^') && has_letter(line, '<')
}

fn has_letter(told: &[char], wanted: char) -> bool
    ensures { result ≡ has wanted told.now }
{
    told.iter().any(|letter| *letter == wanted)
}

/// The story of what follows source and number, the slug part, the headline and the body.
fn story_with(
    alloc: Global,
    rest: &[char],
    slug: &[char],
    headline: &[char],
    body: &[char],
) -> Result<Story, Memory>
    ensures { IfOk result (λ story. story ≡ story_with rest.now slug.now headline.now body.now) }
{
    let slugline = fitting_text(alloc, LONGEST_LINE, slug)?;
    let headline = fitting_text(alloc, LONGEST_LINE, headline)?;
    let category = utf8_text(alloc, category_of(rest))?;
    let body = utf8_text(alloc, body)?;
    Ok(Story {
        kind: Media::Text,
        urgency: urgency_of(rest),
        slugline,
        headline,
        byline: empty(alloc),
        language: empty(alloc),
        category,
        body,
        html: false,
        copyright: empty(alloc),
    })
}

/// A text of no characters.
fn empty(alloc: Global) -> Text
    ensures { result ≡ [] }
{
    Text::of(String::new(alloc))
}

/// Withheld where a word holds the story back.
fn status_with(slug: &[char], headline: &[char], text: &[char]) -> PubStatus
    ensures { result ≡ status_with slug.now headline.now text.now }
{
    let first = first_characters(text, LOOKED_AT);
    if has_held_word(slug) || has_held_word(headline) || has_held_word(first) {
        PubStatus::Withheld
    } else {
        PubStatus::Usable
    }
}
