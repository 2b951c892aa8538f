//! Items are read.
ghost use Rattle.std.specs.Prelude.{◌≡◌, ◌≤◌, Some, IfOk, IfErr, length};
ghost use Rattle.serde_json.specs.View.{view};
ghost use Rattle.news_types.specs.Fits.{FitsStory, FitsIncoming};
ghost use Rattle.ninjs_text.specs.Reading.{IsRead, IsNoJson, json_of};
ghost use Rattle.ninjs_text.specs.Item as said;

use crate::fault::{NinjsFault, Property};
use crate::properties::{moment_or_zero, present, short_text, urgency, word};
use crate::words::{media_of, status_of};
use news_types::{Incoming, Media, Story, Text};
use serde_json::Value;
use std::alloc::Global;

/// The most bytes that an item may have.
const LONGEST_ITEM: usize = 4_194_304;

/// Reads one item.
///
/// # Errors
///
/// The first that holds of these: the bytes are not JSON or too many, the JSON value is no object, and then the first
/// property that is not of its form or too long.
pub fn read(alloc: Global, bytes: &[u8]) -> Result<Incoming, NinjsFault>
    ensures value { IsRead (said.ninjs bytes.now) result }
    ensures fits { IfOk result FitsIncoming }
{
    if bytes.len() > LONGEST_ITEM {
        return Err(NinjsFault::NotJson);
    }
    let value = json_value(alloc, bytes)?;
    if !value.is_object() {
        return Err(NinjsFault::NotObject);
    }
    item(alloc, &value)
}

fn json_value(alloc: Global, bytes: &[u8]) -> Result<Value, NinjsFault>
    ensures ok { IfOk result (λ v. json_of bytes.now ≡ Some (view v)) }
    ensures bad { IfErr result (IsNoJson bytes.now) }
{
    match Value::from_slice(alloc, bytes) {
        Ok(value) => Ok(value),
        Err(error) if error.is_memory() => Err(NinjsFault::Memory),
        Err(_) => Err(NinjsFault::NotJson),
    }
}

fn item(alloc: Global, object: &Value) -> Result<Incoming, NinjsFault>
    ensures value { IsRead (said.item (view object.now)) result }
    ensures fits { IfOk result FitsIncoming }
{
    let identity = uri(alloc, object)?;
    let kind = media_of(word(object, Property::MediaType)?);
    let status = status_of(word(object, Property::PubStatus)?);
    let created = moment_or_zero(object, Property::VersionCreated)?;
    let embargo = moment_or_zero(object, Property::Embargoed)?;
    let story = read_story(alloc, object, kind)?;
    Ok(Incoming {
        identity,
        created,
        embargo,
        status,
        story,
    })
}

/// The story, of this kind.
fn read_story(alloc: Global, object: &Value, kind: Media) -> Result<Story, NinjsFault>
    ensures value { IsRead (said.story kind (view object.now)) result }
    ensures fits { IfOk result FitsStory }
{
    let urgency = urgency(object)?;
    let lines = read_lines(alloc, object)?;
    let body = read_body(alloc, object)?;
    Ok(Story {
        kind,
        urgency,
        slugline: lines.slugline,
        headline: lines.headline,
        byline: lines.byline,
        language: lines.language,
        category: Text::of(String::new(alloc)),
        body: body.text,
        html: body.html,
        copyright: lines.copyright,
    })
}

/// The short texts of a story.
#[derive(Drop)]
struct Lines {
    headline: Text,
    byline: Text,
    slugline: Text,
    language: Text,
    copyright: Text,
}

fn read_lines(alloc: Global, object: &Value) -> Result<Lines, NinjsFault>
    ensures value { IsRead (said.lines (view object.now)) result }
    ensures bound { IfOk result said.FitsLines }
{
    let headline = copied_text(alloc, object, Property::Headline, 500)?;
    let byline = copied_text(alloc, object, Property::Byline, 500)?;
    let slugline = copied_text(alloc, object, Property::Slugline, 500)?;
    let language = copied_text(alloc, object, Property::Language, 35)?;
    let copyright = copied_text(alloc, object, Property::CopyrightHolder, 500)?;
    Ok(Lines {
        headline,
        byline,
        slugline,
        language,
        copyright,
    })
}

/// The identity: a text that is not empty.
fn uri(alloc: Global, object: &Value) -> Result<Text, NinjsFault>
    ensures value { IsRead (said.uri (view object.now)) result }
    ensures bound { IfOk result (λ uri. length uri ≤ 256) }
{
    match short_text(object, Property::Uri, 256)? {
        None => Err(NinjsFault::NoUri),
        Some(uri) => {
            if uri.is_empty() {
                Err(NinjsFault::NoUri)
            } else {
                Ok(Text::copy_of(alloc, uri)?)
            }
        }
    }
}

/// A copy of a text of at most so many bytes, empty where the property is missing.
fn copied_text(
    alloc: Global,
    object: &Value,
    property: Property,
    limit: usize,
) -> Result<Text, NinjsFault>
    ensures value { IsRead (said.text_or_empty limit property (view object.now)) result }
    ensures bound { IfOk result (λ text. length text ≤ limit) }
{
    match short_text(object, property, limit)? {
        None => Ok(Text::copy_of(alloc, "")?),
        Some(text) => Ok(Text::copy_of(alloc, text)?),
    }
}

/// A body, and whether it is HTML.
#[derive(Drop)]
struct Body {
    text: Text,
    html: bool,
}

/// The body: `body_text`, and only where that is missing `body_html`, as it is.
fn read_body(alloc: Global, object: &Value) -> Result<Body, NinjsFault>
    ensures value { IsRead (said.body (view object.now)) result }
    ensures bound { IfOk result (λ body. length body.text ≤ 524_288) }
{
    if present(object, Property::BodyText).is_some() {
        let text = copied_text(alloc, object, Property::BodyText, 524_288)?;
        return Ok(Body { text, html: false });
    }
    let text = copied_text(alloc, object, Property::BodyHtml, 524_288)?;
    let html = present(object, Property::BodyHtml).is_some();
    Ok(Body { text, html })
}
