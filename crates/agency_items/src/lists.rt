//! Lists of an item: headlines, descriptions, names, codes and bodies.
ghost use Rattle.std.specs.Prelude.{◌≡◌, ◌≤◌, IfSome, Ok, length, option_map};
ghost use Rattle.std.specs.Result.{result_map_both};
ghost use Rattle.serde_json.specs.View.{view, items_view};
ghost use Rattle.agency_items.specs.Reading.{IsRead};
ghost use Rattle.agency_items.specs.Texts as text;
ghost use Rattle.agency_items.specs.Lists as said;
ghost use Rattle.agency_items.specs.declared.fault.Property.TheVariants as property_is;

use crate::fault::{ItemFault, Property, Refusal};
use crate::properties::property;
use crate::texts::{add_beside, before_semicolon, is_category, is_same_word, text_in};
use news_types::Text;
use serde_json::Value;
use std::alloc::Global;

/// The text of an entry's property.
fn entry_text(entry: &Value, name: Property) -> Option<&str>
    ensures { option_map (λ text. text.now) result ≡ said.entry_text name (view entry.now) }
{
    property(entry, name)?.as_str()
}

/// What an entry says: a text itself, an object by its value.
fn told_by(entry: &Value) -> Option<&str>
    ensures { option_map (λ text. text.now) result ≡ said.told_by (view entry.now) }
{
    match entry.as_str() {
        Some(text) => Some(text),
        None => entry_text(entry, Property::Value),
    }
}

/// What an entry says, if there is one.
pub(crate) fn entry_of(entry: Option<&Value>, property: Property) -> Result<Option<&str>, ItemFault>
    ensures { result_map_both (option_map (λ text. text.now)) (λ fault. fault) result ≡ said.entry_of property (option_map (λ found. view found.now) entry.entry) }
{
    match entry {
        None => Ok(None),
        Some(entry) => text_in(told_by(entry), property),
    }
}

// ---- headlines and descriptions

fn is_main(entry: &Value) -> bool
    ensures { result ≡ said.is_main (view entry.now) }
{
    match entry_text(entry, Property::Role) {
        None => false,
        Some(role) => is_same_word(role.as_bytes(), b"main"),
    }
}

/// The first entry whose role is main.
fn first_main(list: &Vec<Value>) -> Option<&Value>
    ensures { option_map (λ found. view found.now) result ≡ said.first_with said.is_main (items_view list.now.items) }
{
    for entry in list {
        if is_main(entry) {
            return Some(entry);
        }
    }
    None
}

/// The first entry.
pub(crate) fn first(list: &Vec<Value>) -> Option<&Value>
    ensures { option_map (λ found. view found.now) result ≡ said.first (items_view list.now.items) }
{
    list.first()
}

/// The first entry whose role is main, else the first.
fn main_entry(list: &Vec<Value>) -> Option<&Value>
    ensures { option_map (λ found. view found.now) result ≡ said.main_entry (items_view list.now.items) }
{
    match first_main(list) {
        Some(entry) => Some(entry),
        None => first(list),
    }
}

/// What the main entry of a list says.
pub(crate) fn main_text(object: &Value, name: Property) -> Result<Option<&str>, ItemFault>
    ensures { result_map_both (option_map (λ text. text.now)) (λ fault. fault) result ≡ said.main_text name (view object.now) }
{
    match property(object, name) {
        None => Ok(None),
        Some(found) => match found.as_array() {
            None => Err(ItemFault::WrongType { property: name }),
            Some(list) => entry_of(main_entry(list), name),
        },
    }
}

/// What the first entry of a list says.
pub(crate) fn first_text(object: &Value, name: Property) -> Result<Option<&str>, ItemFault>
    ensures { result_map_both (option_map (λ text. text.now)) (λ fault. fault) result ≡ said.first_text name (view object.now) }
{
    match property(object, name) {
        None => Ok(None),
        Some(found) => match found.as_array() {
            None => Err(ItemFault::WrongType { property: name }),
            Some(list) => entry_of(first(list), name),
        },
    }
}

// ---- names

/// The name that an entry gives: a text itself, of an object the first text of `value`, `byline`, `by` and `name`.
fn name_of(entry: &Value) -> Option<&str>
    ensures { option_map (λ name. name.now) result ≡ said.name_of (view entry.now) }
{
    match told_by(entry) {
        Some(name) => Some(name),
        None => other_name(entry),
    }
}

fn other_name(entry: &Value) -> Option<&str>
    ensures { option_map (λ name. name.now) result ≡ said.other_name (view entry.now) }
{
    match entry_text(entry, Property::Byline) {
        Some(name) => Some(name),
        None => match entry_text(entry, Property::By) {
            Some(name) => Some(name),
            None => entry_text(entry, Property::Name),
        },
    }
}

/// All names of a list, with a comma and a space between.
#[tactic(auto, using(crate::proofs::Joined::told_first, crate::proofs::Joined::told_next, crate::proofs::Joined::told_last))]
fn names_of(alloc: Global, list: &Vec<Value>, property: Property) -> Result<Option<Text>, Refusal>
    ensures { IsRead (text.text_in property (said.names_of (items_view list.now.items))) result }
{
    let mut names = String::new(alloc);
    for entry in list {
        match name_of(entry) {
            None => return Err(Refusal::Fault {
                fault: ItemFault::WrongType { property },
            }),
            Some(name) => add_beside(&mut names, ", ", name)?,
        }
    }
    if names.is_empty() {
        Ok(None)
    } else {
        Ok(Some(Text::of(names)))
    }
}

/// A text, or the names of a list, if it is there and not empty.
pub(crate) fn names(alloc: Global, object: &Value, name: Property) -> Result<Option<Text>, Refusal>
    ensures { IsRead (said.names name (view object.now)) result }
{
    match property(object, name) {
        None => Ok(None),
        Some(found) => match found.as_array() {
            None => copied(alloc, text_in(found.as_str(), name)?),
            Some(list) => names_of(alloc, list, name),
        },
    }
}

fn copied(alloc: Global, told: Option<&str>) -> Result<Option<Text>, Refusal>
    ensures { IsRead (Ok (option_map (λ text. text.now) told.entry)) result }
{
    match told {
        None => Ok(None),
        Some(text) => Ok(Some(Text::copy_of(alloc, text)?)),
    }
}

// ---- codes

/// An entry's code, where it has 1 to 3 letters.
fn category_of(entry: &Value) -> Option<&str>
    ensures value { option_map (λ code. code.now) result ≡ said.category_by (said.entry_text property_is.Code (view entry.now)) }
    ensures bound { IfSome result (λ code. length code.now ≤ 3) }
{
    let code = entry_text(entry, Property::Code)?;
    if is_category(code.as_bytes()) {
        Some(code)
    } else {
        None
    }
}

/// The first code of 1 to 3 letters.
fn first_category(list: &Vec<Value>) -> Option<&str>
    ensures value { option_map (λ code. code.now) result ≡ said.first_category (items_view list.now.items) }
    ensures bound { IfSome result (λ code. length code.now ≤ 3) }
{
    for entry in list {
        if let Some(code) = category_of(entry) {
            return Some(code);
        }
    }
    None
}

fn category_in(object: &Value, name: Property) -> Option<&str>
    ensures value { option_map (λ code. code.now) result ≡ said.category_in name (view object.now) }
    ensures bound { IfSome result (λ code. length code.now ≤ 3) }
{
    first_category(property(object, name)?.as_array()?)
}

/// The first code of 1 to 3 letters of the services, else of the subjects.
pub(crate) fn category(object: &Value) -> Option<&str>
    ensures value { option_map (λ code. code.now) result ≡ said.category (view object.now) }
    ensures bound { IfSome result (λ code. length code.now ≤ 3) }
{
    match category_in(object, Property::Service) {
        Some(code) => Some(code),
        None => category_in(object, Property::Subject),
    }
}

// ---- bodies

fn is_of_type(entry: &Value, wanted: &str) -> bool
    ensures { result ≡ said.is_of_type wanted.now (view entry.now) }
{
    match entry_text(entry, Property::ContentType) {
        None => false,
        Some(told) => is_same_word(before_semicolon(told.as_bytes()), wanted.as_bytes()),
    }
}

/// The first entry of a content type.
pub(crate) fn first_of_type<'a>(list: &'a Vec<Value>, wanted: &str) -> Option<&'a Value>
    ensures { option_map (λ found. view found.now) result ≡ said.first_with (said.is_of_type wanted.now) (items_view list.now.items) }
{
    for entry in list {
        if is_of_type(entry, wanted) {
            return Some(entry);
        }
    }
    None
}
