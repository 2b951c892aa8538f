//! The story of an item.
ghost use Rattle.std.specs.Prelude.{◌≡◌, ◌≤◌, IfOk, codes, length, option_map};
ghost use Rattle.std.specs.Result.{result_map_both};
ghost use Rattle.serde_json.specs.View.{view};
ghost use Rattle.news_types.specs.Fits.{FitsStory};
ghost use Rattle.agency_items.specs.Reading.{IsRead, or_empty};
ghost use Rattle.agency_items.specs.Texts.{cut, beside};
ghost use Rattle.agency_items.specs.Lists.{category};
ghost use Rattle.agency_items.specs.Items as said;

use crate::body::read_body;
use crate::fault::{ItemFault, Property, Refusal};
use crate::lists::{category, main_text, names};
use crate::texts::{add_beside, cut, cut_copy, or_empty, text, within};
use crate::words::urgency;
use news_types::{Media, Memory, Story, Text};
use serde_json::Value;
use std::alloc::Global;

/// The most bytes of a language.
const LONGEST_LANGUAGE: usize = 35;

/// The story of an item, of this kind.
pub(crate) fn story(alloc: Global, object: &Value, kind: Media) -> Result<Story, Refusal>
    ensures value { IsRead (said.story kind (view object.now)) result }
    ensures fits { IfOk result FitsStory }
{
    let lines = short_texts(alloc, object)?;
    let body = read_body(alloc, object)?;
    let copyright = copyright(alloc, object)?;
    let category = category_text(alloc, object)?;
    Ok(Story {
        kind,
        urgency: urgency(object),
        slugline: lines.slugline,
        headline: lines.headline,
        byline: lines.byline,
        language: lines.language,
        category,
        body: body.text,
        html: body.html,
        copyright,
    })
}

/// The short texts of a story.
#[derive(Drop)]
struct Lines {
    headline: Text,
    byline: Text,
    slugline: Text,
    language: Text,
}

fn short_texts(alloc: Global, object: &Value) -> Result<Lines, Refusal>
    ensures value { IsRead (said.lines (view object.now)) result }
    ensures bound { IfOk result said.FitsLines }
{
    let headline = headline(alloc, object)?;
    let byline = byline(alloc, object)?;
    let slugline = slugline(alloc, object)?;
    let language = language(alloc, object)?;
    Ok(Lines {
        headline,
        byline,
        slugline,
        language,
    })
}

fn headline(alloc: Global, object: &Value) -> Result<Text, Refusal>
    ensures value { IsRead (said.headline (view object.now)) result }
    ensures bound { IfOk result (λ text. length text ≤ 500) }
{
    let told = headline_told(object)?;
    Ok(cut_copy(alloc, told)?)
}

/// `headline`, or else the main entry of `headlines`.
fn headline_told(object: &Value) -> Result<Option<&str>, ItemFault>
    ensures { result_map_both (option_map (λ text. text.now)) (λ fault. fault) result ≡ said.headline_told (view object.now) }
{
    match text(object, Property::Headline)? {
        Some(told) => Ok(Some(told)),
        None => main_text(object, Property::Headlines),
    }
}

fn byline(alloc: Global, object: &Value) -> Result<Text, Refusal>
    ensures value { IsRead (said.byline (view object.now)) result }
    ensures bound { IfOk result (λ text. length text ≤ 500) }
{
    match byline_told(alloc, object)? {
        Some(told) => Ok(Text::copy_of(alloc, cut(told.as_str()))?),
        None => Ok(cut_copy(alloc, None)?),
    }
}

/// `byline`, or else `bylines`, each a text or a list.
fn byline_told(alloc: Global, object: &Value) -> Result<Option<Text>, Refusal>
    ensures { IsRead (said.byline_told (view object.now)) result }
{
    match names(alloc, object, Property::Byline)? {
        Some(told) => Ok(Some(told)),
        None => names(alloc, object, Property::Bylines),
    }
}

fn slugline(alloc: Global, object: &Value) -> Result<Text, Refusal>
    ensures value { IsRead (said.slugline (view object.now)) result }
    ensures bound { IfOk result (λ text. length text ≤ 500) }
{
    let told = text(object, Property::Slugline)?;
    Ok(cut_copy(alloc, told)?)
}

fn language(alloc: Global, object: &Value) -> Result<Text, Refusal>
    ensures value { IsRead (said.language (view object.now)) result }
    ensures bound { IfOk result (λ text. length text ≤ 35) }
{
    let told = or_empty(text(object, Property::Language)?);
    let told = within(told, LONGEST_LANGUAGE, Property::Language)?;
    Ok(Text::copy_of(alloc, told)?)
}

/// The notice, or else the holder, and behind it how the item may be used.
fn copyright(alloc: Global, object: &Value) -> Result<Text, Refusal>
    ensures value { IsRead (said.copyright (view object.now)) result }
    ensures bound { IfOk result (λ text. length text ≤ 500) }
{
    let owner = owner(object)?;
    let terms = text(object, Property::UsageTerms)?;
    Ok(with_terms(alloc, or_empty(owner), or_empty(terms))?)
}

fn owner(object: &Value) -> Result<Option<&str>, ItemFault>
    ensures { result_map_both (option_map (λ text. text.now)) (λ fault. fault) result ≡ said.owner (view object.now) }
{
    match text(object, Property::CopyrightNotice)? {
        Some(told) => Ok(Some(told)),
        None => text(object, Property::CopyrightHolder),
    }
}

fn with_terms(alloc: Global, owner: &str, terms: &str) -> Result<Text, Memory>
    ensures value { IfOk result (λ told. told ≡ cut (beside (codes " / ") owner.now terms.now)) }
    ensures bound { IfOk result (λ told. length told ≤ 500) }
{
    let mut told = String::from_str(alloc, owner)?;
    add_beside(&mut told, " / ", terms)?;
    Text::copy_of(alloc, cut(told.as_str()))
}

fn category_text(alloc: Global, object: &Value) -> Result<Text, Memory>
    ensures value { IfOk result (λ told. told ≡ or_empty (category (view object.now))) }
    ensures bound { IfOk result (λ told. length told ≤ 3) }
{
    match category(object) {
        None => Text::copy_of(alloc, ""),
        Some(code) => Text::copy_of(alloc, code),
    }
}
