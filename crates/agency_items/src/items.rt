//! Items are read.
ghost use Rattle.std.specs.Prelude.{◌≡◌, ◌≤◌, Some, IfOk, IfErr, OnOk, All, [], ◌∷◌, ◌++◌, length};
ghost use Rattle.std.specs.Result.{result_map_both};
ghost use Rattle.serde_json.specs.View.{view, items_view};
ghost use Rattle.news_types.specs.Fits.{FitsIncoming};
ghost use Rattle.ninjs_text.specs.Reading.{json_of};
ghost use Rattle.agency_items.specs.Reading.{IsRead, IsNoJson};
ghost use Rattle.agency_items.specs.Items as said;

use crate::fault::{ItemFault, Property, Refusal};
use crate::moments::moment;
use crate::story::story;
use crate::texts::{text, within};
use crate::words::{kind, status};
use news_types::{Incoming, Memory, Text};
use serde_json::Value;
use std::alloc::Global;

/// The most bytes of an input.
const LONGEST_INPUT: usize = 4_194_304;
/// The most bytes of an identity.
const LONGEST_IDENTITY: usize = 256;

/// Reads an input: one item, or a list of items.
///
/// For each item, in order, there is what came in or why it is not read. An input of more than 4,194,304 bytes, or that is not
/// JSON, or neither an object nor a list, is one fault, and an empty list is no item.
///
/// # Errors
///
/// Want of memory; nothing is kept then.
pub fn read_items(alloc: Global, bytes: &[u8]) -> Result<Vec<Result<Incoming, ItemFault>>, Memory>
    ensures value { IfOk result (λ items. items.items ≡ said.items bytes.now) }
    ensures fits { IfOk result (λ items. All (λ told. IfOk told FitsIncoming) items.items) }
{
    if bytes.len() > LONGEST_INPUT {
        return alone(alloc, Err(ItemFault::NotJson));
    }
    match json_value(alloc, without_mark(bytes)) {
        Ok(value) => members_of(alloc, &value),
        Err(Refusal::Fault { fault }) => alone(alloc, Err(fault)),
        Err(Refusal::Memory) => Err(Memory),
    }
}

/// The bytes without a byte order mark at their front.
fn without_mark(bytes: &[u8]) -> &[u8]
    ensures { result.now ≡ said.without_mark bytes.now }
{
    match bytes {
        [0xEF, 0xBB, 0xBF, rest @ ..] => rest,
        _ => bytes,
    }
}

fn json_value(alloc: Global, bytes: &[u8]) -> Result<Value, Refusal>
    ensures ok { IfOk result (λ v. json_of bytes.now ≡ Some (view v)) }
    ensures bad { IfErr result (IsNoJson bytes.now) }
{
    match Value::from_slice(alloc, bytes) {
        Ok(value) => Ok(value),
        Err(error) if error.is_memory() => Err(Refusal::Memory),
        Err(_) => Err(Refusal::Fault {
            fault: ItemFault::NotJson,
        }),
    }
}

/// One member and no other.
fn alone(
    alloc: Global,
    told: Result<Incoming, ItemFault>,
) -> Result<Vec<Result<Incoming, ItemFault>>, Memory>
    ensures { IfOk result (λ items. items.items ≡ told ∷ []) }
{
    let mut items = Vec::new(alloc);
    items.push(told)?;
    Ok(items)
}

fn members_of(alloc: Global, value: &Value) -> Result<Vec<Result<Incoming, ItemFault>>, Memory>
    ensures value { IfOk result (λ items. items.items ≡ said.members_of (Some (view value.now))) }
    ensures fits { IfOk result (λ items. All (λ told. IfOk told FitsIncoming) items.items) }
{
    match value.as_array() {
        Some(list) => each(alloc, list),
        None => alone(alloc, member(alloc, value)?),
    }
}

/// What each member of a list says.
fn each(alloc: Global, list: &Vec<Value>) -> Result<Vec<Result<Incoming, ItemFault>>, Memory>
    ensures value { IfOk result (λ items. items.items ≡ said.each (items_view list.now.items)) }
    ensures fits { IfOk result (λ items. All (λ told. IfOk told FitsIncoming) items.items) }
{
    let mut items = Vec::new(alloc);
    for value in list {
        keep(&mut items, member(alloc, value)?)?;
    }
    Ok(items)
}

/// Puts what a member says behind the others.
fn keep(
    items: &mut Vec<Result<Incoming, ItemFault>>,
    told: Result<Incoming, ItemFault>,
) -> Result<(), Memory>
    ensures items { OnOk result (items.new.items ≡ items.old.items ++ told ∷ []) }
    ensures fits { All (λ told. IfOk told FitsIncoming) items.old.items → IfOk told FitsIncoming → OnOk result (All (λ told. IfOk told FitsIncoming) items.new.items) }
{
    items.push(told)?;
    Ok(())
}

/// What one member says.
fn member(alloc: Global, value: &Value) -> Result<Result<Incoming, ItemFault>, Memory>
    ensures value { IfOk result (λ told. told ≡ said.member (view value.now)) }
    ensures fits { IfOk result (λ told. IfOk told FitsIncoming) }
{
    match object(alloc, value) {
        Ok(incoming) => Ok(Ok(incoming)),
        Err(Refusal::Fault { fault }) => Ok(Err(fault)),
        Err(Refusal::Memory) => Err(Memory),
    }
}

fn object(alloc: Global, value: &Value) -> Result<Incoming, Refusal>
    ensures value { IsRead (said.member (view value.now)) result }
    ensures fits { IfOk result FitsIncoming }
{
    if !value.is_object() {
        return Err(Refusal::Fault {
            fault: ItemFault::NotObject,
        });
    }
    item(alloc, value)
}

fn item(alloc: Global, object: &Value) -> Result<Incoming, Refusal>
    ensures value { IsRead (said.item_of (view object.now)) result }
    ensures fits { IfOk result FitsIncoming }
{
    let identity = identity(alloc, object)?;
    let kind = kind(object)?;
    let status = status(object)?;
    let created = moment(object, Property::VersionCreated)?;
    let embargo = moment(object, Property::Embargoed)?;
    let story = story(alloc, object, kind)?;
    Ok(Incoming {
        identity,
        created,
        embargo,
        status,
        story,
    })
}

/// `uri`, or where it is missing Superdesk's `guid`.
fn identity(alloc: Global, object: &Value) -> Result<Text, Refusal>
    ensures value { IsRead (said.identity (view object.now)) result }
    ensures bound { IfOk result (λ identity. length identity ≤ 256) }
{
    let told = identity_told(object)?;
    Ok(Text::copy_of(alloc, told)?)
}

fn identity_told(object: &Value) -> Result<&str, ItemFault>
    ensures value { result_map_both (λ text. text.now) (λ fault. fault) result ≡ said.identity (view object.now) }
    ensures bound { IfOk result (λ text. length text.now ≤ 256) }
{
    match text(object, Property::Uri)? {
        Some(uri) => within(uri, LONGEST_IDENTITY, Property::Uri),
        None => match text(object, Property::Guid)? {
            Some(guid) => within(guid, LONGEST_IDENTITY, Property::Guid),
            None => Err(ItemFault::NoUri),
        },
    }
}
