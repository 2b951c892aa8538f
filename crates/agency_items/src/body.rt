//! The body of an item.
ghost use Rattle.std.specs.Prelude.{◌≡◌, ◌≤◌, IfOk, IfSome, Some, true, false, length, option_map};
ghost use Rattle.std.specs.Option.{option_or};
ghost use Rattle.serde_json.specs.View.{view, items_view};
ghost use Rattle.agency_items.specs.declared.fault.Property.TheVariants as property_is;
ghost use Rattle.agency_items.specs.declared.fault.ItemFault.TheVariants as fault_is;
ghost use Rattle.agency_items.specs.declared.fault.Refusal.TheVariants as refusal_is;
ghost use Rattle.agency_items.specs.Reading.{IsRead, else_read};
ghost use Rattle.agency_items.specs.Bodies as said;

use crate::fault::{ItemFault, Property, Refusal};
use crate::lists::{entry_of, first, first_of_type, first_text};
use crate::properties::property;
use crate::texts::{text, within};
use news_types::Text;
use serde_json::Value;
use std::alloc::Global;

/// The most bytes of a body.
const LONGEST_BODY: usize = 524_288;

/// A body, and whether it is HTML.
#[derive(Drop)]
pub(crate) struct Body {
    pub(crate) text: Text,
    pub(crate) html: bool,
}

/// The first body that is not empty, and an empty one where there is none.
pub(crate) fn read_body(alloc: Global, object: &Value) -> Result<Body, Refusal>
    ensures value { IsRead (said.body (view object.now)) result }
    ensures bound { IfOk result (λ body. length body.text ≤ 524_288) }
{
    match found(alloc, object)? {
        Some(body) => Ok(body),
        None => Ok(Body {
            text: Text::of(String::new(alloc)),
            html: false,
        }),
    }
}

fn found(alloc: Global, object: &Value) -> Result<Option<Body>, Refusal>
    ensures value { IsRead (said.found (view object.now)) result }
    ensures bound { IfOk result (λ found. IfSome found said.FitsBody) }
{
    match body_of(alloc, object, Property::BodyText, false)? {
        Some(body) => Ok(Some(body)),
        None => found_html(alloc, object),
    }
}

fn found_html(alloc: Global, object: &Value) -> Result<Option<Body>, Refusal>
    ensures value { IsRead (said.found_html (view object.now)) result }
    ensures bound { IfOk result (λ found. IfSome found said.FitsBody) }
{
    match body_of(alloc, object, Property::BodyHtml, true)? {
        Some(body) => Ok(Some(body)),
        None => found_xhtml(alloc, object),
    }
}

fn found_xhtml(alloc: Global, object: &Value) -> Result<Option<Body>, Refusal>
    ensures value { IsRead (said.found_xhtml (view object.now)) result }
    ensures bound { IfOk result (λ found. IfSome found said.FitsBody) }
{
    match body_of(alloc, object, Property::BodyXhtml, true)? {
        Some(body) => Ok(Some(body)),
        None => listed_or_described(alloc, object),
    }
}

fn listed_or_described(alloc: Global, object: &Value) -> Result<Option<Body>, Refusal>
    ensures value { IsRead (said.listed_or_described (view object.now)) result }
    ensures bound { IfOk result (λ found. IfSome found said.FitsBody) }
{
    match listed(alloc, object)? {
        Some(body) => Ok(Some(body)),
        None => described(alloc, object),
    }
}

fn described(alloc: Global, object: &Value) -> Result<Option<Body>, Refusal>
    ensures value { IsRead (said.described (view object.now)) result }
    ensures bound { IfOk result (λ found. IfSome found said.FitsBody) }
{
    match body_of(alloc, object, Property::DescriptionText, false)? {
        Some(body) => Ok(Some(body)),
        None => {
            let told = first_text(object, Property::Descriptions)?;
            body_in(alloc, told, Property::Descriptions, false)
        }
    }
}

// ---- the list of bodies

/// The body of the first entry of plain text, else of the first of HTML.
fn listed(alloc: Global, object: &Value) -> Result<Option<Body>, Refusal>
    ensures value { IsRead (said.listed (view object.now)) result }
    ensures bound { IfOk result (λ found. IfSome found said.FitsBody) }
{
    match property(object, Property::Bodies) {
        None => Ok(None),
        Some(found) => match found.as_array() {
            None => Err(wrong_bodies()),
            Some(list) => listed_in(alloc, list),
        },
    }
}

fn listed_in(alloc: Global, list: &Vec<Value>) -> Result<Option<Body>, Refusal>
    ensures value { IsRead (said.listed_in (Some (items_view list.now.items))) result }
    ensures bound { IfOk result (λ found. IfSome found said.FitsBody) }
{
    let plain = first_of_type(list, "text/plain");
    let html = first_of_type(list, "text/html");
    match either(plain, html) {
        None => of_other_types(first(list)),
        Some(_) => plain_or_html(alloc, plain, html),
    }
}

/// The first of two entries that is there.
fn either<'a>(plain: Option<&'a Value>, html: Option<&'a Value>) -> Option<&'a Value>
    ensures { option_map (λ entry. view entry.now) result ≡ option_or (option_map (λ entry. view entry.now) plain.entry) (option_map (λ entry. view entry.now) html.entry) }
{
    match plain {
        Some(entry) => Some(entry),
        None => html,
    }
}

fn plain_or_html(
    alloc: Global,
    plain: Option<&Value>,
    html: Option<&Value>,
) -> Result<Option<Body>, Refusal>
    ensures value { IsRead (else_read (said.entry_body false (option_map (λ entry. view entry.now) plain.entry)) (said.entry_body true (option_map (λ entry. view entry.now) html.entry))) result }
    ensures bound { IfOk result (λ found. IfSome found said.FitsBody) }
{
    match entry_body(alloc, plain, false)? {
        Some(body) => Ok(Some(body)),
        None => entry_body(alloc, html, true),
    }
}

/// A list with entries of other types alone is a fault: what was sent is not to come in empty.
fn of_other_types(entry: Option<&Value>) -> Result<Option<Body>, Refusal>
    ensures value { IsRead (said.of_other_types (option_map (λ found. view found.now) entry.entry)) result }
    ensures bound { IfOk result (λ found. IfSome found said.FitsBody) }
{
    match entry {
        None => Ok(None),
        Some(_) => Err(wrong_bodies()),
    }
}

fn wrong_bodies() -> Refusal
    ensures { result ≡ refusal_is.Fault (fault_is.WrongType property_is.Bodies) }
{
    Refusal::Fault {
        fault: ItemFault::WrongType {
            property: Property::Bodies,
        },
    }
}

// ---- a text as a body

fn entry_body(alloc: Global, entry: Option<&Value>, html: bool) -> Result<Option<Body>, Refusal>
    ensures value { IsRead (said.entry_body html (option_map (λ found. view found.now) entry.entry)) result }
    ensures bound { IfOk result (λ found. IfSome found said.FitsBody) }
{
    let told = entry_of(entry, Property::Bodies)?;
    body_in(alloc, told, Property::Bodies, html)
}

fn body_of(
    alloc: Global,
    object: &Value,
    property: Property,
    html: bool,
) -> Result<Option<Body>, Refusal>
    ensures value { IsRead (said.body_of property html (view object.now)) result }
    ensures bound { IfOk result (λ found. IfSome found said.FitsBody) }
{
    let told = text(object, property)?;
    body_in(alloc, told, property, html)
}

fn body_in(
    alloc: Global,
    told: Option<&str>,
    property: Property,
    html: bool,
) -> Result<Option<Body>, Refusal>
    ensures value { IsRead (said.body_in property html (option_map (λ text. text.now) told.entry)) result }
    ensures bound { IfOk result (λ found. IfSome found said.FitsBody) }
{
    match told {
        None => Ok(None),
        Some(told) => {
            let told = within(told, LONGEST_BODY, property)?;
            let text = Text::copy_of(alloc, told)?;
            Ok(Some(Body { text, html }))
        }
    }
}
