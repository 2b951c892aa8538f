//! The properties of an object, each read by its form.
ghost use Rattle.std.specs.Prelude.{◌≡◌, ◌≤◌, ◌<◌, ◌^◌, IfOk, All, IsTrue, nat_le, length, []};
ghost use Rattle.std.specs.Option.{option_map};
ghost use Rattle.std.specs.Result.{result_map_both};
ghost use Rattle.serde_json.specs.View.{view, items_view};
ghost use Rattle.news_types.specs.Fits.{IsMoment};
ghost use Rattle.news_types.specs.FitsCommands.{IfGiven};
ghost use Rattle.desk_lines.specs.Forms as form;
ghost use Rattle.desk_lines.specs.Reading as said;
ghost use Rattle.desk_lines.specs.Reading.{IsRead, or_bad};

use crate::forms::{Bits, Word, bits_of, moment_of, name_of, text_of, whole_of, word_of};
use crate::property::{LineFault, LineProperty, word_of_property};
use news_types::{Moment, Name, Names, Text, Texts};
use serde_json::Value;
use std::alloc::Global;

/// The value at a property.
pub(crate) fn given(object: &Value, property: LineProperty) -> Option<&Value>
    ensures { option_map (λ v. view v.now) result ≡ said.property property (view object.now) }
{
    object.get(word_of_property(property))
}

/// A name, which has to be there.
pub(crate) fn needs_name(object: &Value, property: LineProperty) -> Result<Name, LineProperty>
    ensures { result ≡ (said.needs property form.name) (view object.now) }
{
    match given(object, property) {
        None => Err(property),
        Some(value) => name_of(value).ok_or(property),
    }
}

/// A name, or none where it is missing or null.
pub(crate) fn option_name(
    object: &Value,
    property: LineProperty,
) -> Result<Option<Name>, LineProperty>
    ensures { result ≡ (said.option property form.name) (view object.now) }
{
    match given(object, property) {
        None => Ok(None),
        Some(value) => {
            if value.is_null() {
                return Ok(None);
            }
            match name_of(value) {
                None => Err(property),
                Some(name) => Ok(Some(name)),
            }
        }
    }
}

/// A whole number that has to be there.
pub(crate) fn needs_whole(
    object: &Value,
    property: LineProperty,
    most: u64,
) -> Result<u64, LineProperty>
    ensures value { result ≡ (said.needs property (form.whole most)) (view object.now) }
    ensures bound { IfOk result (λ n. n ≤ most) }
{
    match given(object, property) {
        None => Err(property),
        Some(value) => whole_of(value, most).ok_or(property),
    }
}

/// A flag, or the default where it is missing.
pub(crate) fn may_flag(
    object: &Value,
    property: LineProperty,
    default: bool,
) -> Result<bool, LineProperty>
    ensures { result ≡ (said.may property form.flag default) (view object.now) }
{
    match given(object, property) {
        None => Ok(default),
        Some(value) => value.as_bool().ok_or(property),
    }
}

/// A text of at most so many bytes, empty where it is missing.
pub(crate) fn may_text(
    alloc: Global,
    object: &Value,
    property: LineProperty,
    limit: usize,
) -> Result<Text, LineFault>
    ensures value { IsRead ((said.may property (form.text limit) []) (view object.now)) result }
    ensures bound { IfOk result (λ text. length text ≤ limit) }
{
    match given(object, property) {
        None => Ok(Text::copy_of(alloc, "")?),
        Some(value) => match text_of(value, limit) {
            None => Err(LineFault::Bad { property }),
            Some(text) => Ok(Text::copy_of(alloc, text)?),
        },
    }
}

/// One of some words, which has to be there.
pub(crate) fn needs_word<W: Word>(object: &Value, property: LineProperty) -> Result<W, LineProperty>
    ensures { result ≡ (said.needs property (form.word W.words)) (view object.now) }
{
    match given(object, property) {
        None => Err(property),
        Some(value) => word_of(value).ok_or(property),
    }
}

/// A moment, or none where it is missing or null.
pub(crate) fn option_moment(
    object: &Value,
    property: LineProperty,
) -> Result<Option<Moment>, LineProperty>
    ensures value { result ≡ (said.option property form.moment) (view object.now) }
    ensures bound { IfOk result (IfGiven IsMoment) }
{
    match given(object, property) {
        None => Ok(None),
        Some(value) => {
            if value.is_null() {
                return Ok(None);
            }
            match moment_of(value) {
                None => Err(property),
                Some(moment) => Ok(Some(moment)),
            }
        }
    }
}

/// A whole number, or the default where it is missing.
pub(crate) fn may_whole(
    object: &Value,
    property: LineProperty,
    most: u64,
    default: u64,
) -> Result<u64, LineProperty>
    ensures value { result ≡ (said.may property (form.whole most) default) (view object.now) }
    ensures bound { default ≤ most → IfOk result (λ n. n ≤ most) }
{
    match given(object, property) {
        None => Ok(default),
        Some(value) => whole_of(value, most).ok_or(property),
    }
}

/// A text of at most so many bytes, which has to be there.
pub(crate) fn needs_text(
    alloc: Global,
    object: &Value,
    property: LineProperty,
    limit: usize,
) -> Result<Text, LineFault>
    ensures value { IsRead ((said.needs property (form.text limit)) (view object.now)) result }
    ensures bound { IfOk result (λ text. length text ≤ limit) }
{
    match given(object, property) {
        None => Err(LineFault::Bad { property }),
        Some(value) => match text_of(value, limit) {
            None => Err(LineFault::Bad { property }),
            Some(text) => Ok(Text::copy_of(alloc, text)?),
        },
    }
}

/// One of some words, or the default where it is missing.
pub(crate) fn may_word<W: Word>(
    object: &Value,
    property: LineProperty,
    default: W,
) -> Result<W, LineProperty>
    ensures { result ≡ (said.may property (form.word W.words) default) (view object.now) }
{
    match given(object, property) {
        None => Ok(default),
        Some(value) => word_of(value).ok_or(property),
    }
}

/// The bits of a list of words, none where it is missing.
pub(crate) fn may_bits<B: Bits>(object: &Value, property: LineProperty) -> Result<u16, LineProperty>
    ensures value { result ≡ (said.may property (form.bits B.words) 0) (view object.now) }
    ensures bound { IfOk result (λ bits. bits < 2 ^ B.width) }
{
    match given(object, property) {
        None => Ok(0),
        Some(value) => match value.as_array() {
            None => Err(property),
            Some(list) => bits_of::<B>(list).ok_or(property),
        },
    }
}

/// A list of at most so many names, empty where it is missing.
pub(crate) fn may_names(
    alloc: Global,
    object: &Value,
    property: LineProperty,
    limit: usize,
) -> Result<Names, LineFault>
    ensures value { IsRead ((said.may property (form.list limit form.name) []) (view object.now)) result }
    ensures bound { IfOk result (λ names. length names ≤ limit) }
{
    match given(object, property) {
        None => Ok(Names::of(Vec::new(alloc))),
        Some(value) => match value.as_array() {
            None => Err(LineFault::Bad { property }),
            Some(list) => {
                if !is_few(list, limit) {
                    return Err(LineFault::Bad { property });
                }
                names_in(alloc, list, property)
            }
        },
    }
}

/// There are at most so many.
#[tactic(auto, using(crate::proofs::Fronts::count_view))]
pub(crate) fn is_few(list: &Vec<Value>, limit: usize) -> bool
    ensures value { result ≡ nat_le (said.count (items_view list.now.items)) limit }
    ensures bound { IsTrue result → length list.now.items ≤ limit }
{
    list.len() <= limit
}

fn names_in(alloc: Global, list: &Vec<Value>, property: LineProperty) -> Result<Names, LineFault>
    ensures value { IsRead (or_bad property (form.all_of form.name (items_view list.now.items))) result }
    ensures count { IfOk result (λ names. length names ≡ length list.now.items) }
{
    let mut names = Vec::new(alloc);
    for value in list {
        names.push(name_of(value).ok_or(property)?)?;
    }
    Ok(Names::of(names))
}

/// A list of at most so many texts, each of at most so many bytes, empty where it is missing.
pub(crate) fn may_texts(
    alloc: Global,
    object: &Value,
    property: LineProperty,
    few: usize,
    limit: usize,
) -> Result<Texts, LineFault>
    ensures value { IsRead ((said.may property (form.list few (form.text limit)) []) (view object.now)) result }
    ensures few { IfOk result (λ texts. length texts ≤ few) }
    ensures short { IfOk result (λ texts. All (λ text. length text ≤ limit) texts) }
{
    match given(object, property) {
        None => Ok(Texts::of(Vec::new(alloc))),
        Some(value) => match value.as_array() {
            None => Err(LineFault::Bad { property }),
            Some(list) => {
                if !is_few(list, few) {
                    return Err(LineFault::Bad { property });
                }
                texts_in(alloc, list, property, limit)
            }
        },
    }
}

fn texts_in(
    alloc: Global,
    list: &Vec<Value>,
    property: LineProperty,
    limit: usize,
) -> Result<Texts, LineFault>
    ensures value { IsRead (or_bad property (form.all_of (form.text limit) (items_view list.now.items))) result }
    ensures count { IfOk result (λ texts. length texts ≡ length list.now.items) }
    ensures short { IfOk result (λ texts. All (λ text. length text ≤ limit) texts) }
{
    let mut texts = Vec::new(alloc);
    for value in list {
        match text_of(value, limit) {
            None => return Err(LineFault::Bad { property }),
            Some(text) => texts.push(Text::copy_of(alloc, text)?)?,
        }
    }
    Ok(Texts::of(texts))
}

/// A whole number, or none where it is missing or null.
pub(crate) fn option_whole(
    object: &Value,
    property: LineProperty,
    most: u64,
) -> Result<Option<u64>, LineProperty>
    ensures value { result ≡ (said.option property (form.whole most)) (view object.now) }
    ensures bound { IfOk result (IfGiven (λ n. n ≤ most)) }
{
    match given(object, property) {
        None => Ok(None),
        Some(value) => {
            if value.is_null() {
                return Ok(None);
            }
            match whole_of(value, most) {
                None => Err(property),
                Some(n) => Ok(Some(n)),
            }
        }
    }
}

/// A text of any length, which has to be there.
pub(crate) fn needs_any_text(object: &Value, property: LineProperty) -> Result<&str, LineProperty>
    ensures { result_map_both (λ text. text.now) (λ p. p) result ≡ (said.needs property form.any_text) (view object.now) }
{
    match given(object, property) {
        None => Err(property),
        Some(value) => match value.as_str() {
            None => Err(property),
            Some(text) => Ok(text),
        },
    }
}
