//! Lines are read.
ghost use Rattle.std.specs.Prelude.{◌≡◌, Some, None, Ok, IfOk, IsTrue};
ghost use Rattle.serde_json.specs.View.{view};
ghost use Rattle.news_types.specs.Fits.{FitsStory};
ghost use Rattle.package_members.specs.Members.{make_package};
ghost use Rattle.desk_lines.specs.Reading.{IsRead, IsReadAs, json_of};
ghost use Rattle.desk_lines.specs.Lines as said;
ghost use Rattle.desk_lines.specs.Lines.{FitsAsked};

use crate::asked::Asked;
use crate::commands::{command, item};
use crate::fields::{given, needs_any_text, needs_name, needs_whole};
use crate::objects::{each, story_of};
use crate::property::{LineFault, LineProperty};
use crate::questions::{items, publications, reach, targets, things};
use news_types::{Name, Names, Query, Story, Text};
use package_members::{Members, makes_package};
use serde_json::Value;
use std::alloc::Global;

/// The most bytes that a line may have.
const LONGEST_LINE: usize = 4_194_304;

/// Reads a line without its line end.
///
/// # Errors
///
/// The first bad property; where there is no memory, `Memory` may come in its place.
pub fn read_line(alloc: Global, line: &[u8]) -> Result<Asked, LineFault>
    ensures value { IsRead (said.line line.now) result }
    ensures fits { IfOk result FitsAsked }
{
    let object = object_in(alloc, line)?;
    any(alloc, &object)
}

/// Reads a request of this caller: a line without `by`.
///
/// # Errors
///
/// As those of `read_line`; a line that is no request is bad itself.
pub fn read_request_body(alloc: Global, caller: Name, body: &[u8]) -> Result<Asked, LineFault>
    ensures value { IsRead (said.request_body caller body.now) result }
    ensures fits { IfOk result FitsAsked }
{
    let object = object_in(alloc, body)?;
    only_request(alloc, caller, &object)
}

/// Reads a receipt of this subscriber: an object with `n`.
///
/// # Errors
///
/// As those of `read_line`.
pub fn read_receipt_body(alloc: Global, subscriber: Name, body: &[u8]) -> Result<Asked, LineFault>
    ensures { IsRead (said.receipt_body subscriber body.now) result }
{
    let object = object_in(alloc, body)?;
    Ok(receipt_of(subscriber, &object)?)
}

/// Reads an object with a story's properties.
///
/// # Errors
///
/// As those of `read_line`.
pub fn read_story(alloc: Global, object: &[u8]) -> Result<Story, LineFault>
    ensures value { IsRead (said.story_object object.now) result }
    ensures fits { IfOk result FitsStory }
{
    let found = object_in(alloc, object)?;
    story_of(alloc, &found)
}

/// Reads a question on the archive: an object with `page` and `query`. How long the query is, and whether it is one, is not
/// judged here.
///
/// # Errors
///
/// As those of `read_line`.
pub fn read_archive_body(alloc: Global, body: &[u8]) -> Result<Asked, LineFault>
    ensures value { IsRead (said.archive_body body.now) result }
    ensures fits { IfOk result FitsAsked }
{
    let object = object_in(alloc, body)?;
    archive(alloc, &object)
}

/// Reads the targets that a publication would have: an object with `targets`, a list of at most 256 names, or without, which
/// is none.
///
/// # Errors
///
/// As those of `read_line`.
pub fn read_reach_body(alloc: Global, body: &[u8]) -> Result<Names, LineFault>
    ensures { IsRead (said.reach_body body.now) result }
{
    let object = object_in(alloc, body)?;
    targets(alloc, &object)
}

/// A package as an object has it: a story, and the members.
#[derive(Drop)]
pub struct Described {
    pub story: Story,
    pub members: Members,
}

/// A package that a caller asks for by a number.
#[derive(Drop)]
pub struct PackageRequest {
    pub number: u64,
    pub described: Described,
}

/// Reads an object with a story's properties and `members`, a list of objects with `role` and `item`, of which a package can
/// be made.
///
/// # Errors
///
/// As those of `read_line`: the story's properties come first, then whether `members` is a list of objects, then what stands
/// in it, one object after another, and last, as `members`, whether a package can be made of these.
pub fn read_package(alloc: Global, object: &[u8]) -> Result<Described, LineFault>
    ensures value { IsRead (said.package_object object.now) result }
    ensures fits { IfOk result (λ read. FitsStory read.story) }
    ensures made { IfOk result (λ read. IsTrue (make_package read.members)) }
{
    let found = object_in(alloc, object)?;
    package_of(alloc, &found)
}

/// Reads the object of a package with a `number` beside: the number comes first.
///
/// # Errors
///
/// As those of `read_package`.
pub fn read_package_body(alloc: Global, body: &[u8]) -> Result<PackageRequest, LineFault>
    ensures value { IsRead (said.package_body body.now) result }
    ensures fits { IfOk result (λ read. FitsStory read.described.story) }
    ensures made { IfOk result (λ read. IsTrue (make_package read.described.members)) }
{
    let object = object_in(alloc, body)?;
    package_request(alloc, &object)
}

/// A package and its number.
#[tactic(auto, unfolding(crate::specs::Lines::package_request))]
fn package_request(alloc: Global, object: &Value) -> Result<PackageRequest, LineFault>
    ensures value { IsRead (said.package_request (view object.now)) result }
    ensures fits { IfOk result (λ read. FitsStory read.described.story) }
    ensures made { IfOk result (λ read. IsTrue (make_package read.described.members)) }
{
    Ok(PackageRequest {
        number: needs_whole(object, LineProperty::Number, u64::MAX)?,
        described: package_of(alloc, object)?,
    })
}

/// What an object says of a package.
#[tactic(auto, unfolding(crate::specs::Lines::described))]
fn package_of(alloc: Global, object: &Value) -> Result<Described, LineFault>
    ensures value { IsRead (said.described (view object.now)) result }
    ensures fits { IfOk result (λ read. FitsStory read.story) }
    ensures made { IfOk result (λ read. IsTrue (make_package read.members)) }
{
    Ok(Described {
        story: story_of(alloc, object)?,
        members: members_of(alloc, object)?,
    })
}

/// Members of which a package can be made.
#[tactic(auto, unfolding(crate::specs::Lines::members))]
fn members_of(alloc: Global, object: &Value) -> Result<Members, LineFault>
    ensures value { IsRead (said.members (view object.now)) result }
    ensures made { IfOk result (λ found. IsTrue (make_package found)) }
{
    let found = Members::of(each(alloc, object, LineProperty::Members, LONGEST_LINE)?);
    if makes_package(found.as_slice()) {
        Ok(found)
    } else {
        Err(LineFault::Bad {
            property: LineProperty::Members,
        })
    }
}

/// The object of a line.
#[tactic(auto, unfolding(crate::specs::Lines::object_in))]
fn object_in(alloc: Global, bytes: &[u8]) -> Result<Value, LineFault>
    ensures { IsReadAs view (said.object_in bytes.now) result }
{
    if bytes.len() > LONGEST_LINE {
        return Err(LineFault::Bad {
            property: LineProperty::Line,
        });
    }
    let value = json_value(alloc, bytes)?;
    if value.is_object() {
        Ok(value)
    } else {
        Err(LineFault::Bad {
            property: LineProperty::Line,
        })
    }
}

fn json_value(alloc: Global, bytes: &[u8]) -> Result<Value, LineFault>
    ensures ok { IfOk result (λ v. json_of bytes.now ≡ Some (view v)) }
    ensures bad { (p : LineProperty) → result ≡ Err (LineFault.Bad p) → (p ≡ LineProperty.Line) × (json_of bytes.now ≡ None) }
{
    match Value::from_slice(alloc, bytes) {
        Ok(value) => Ok(value),
        Err(error) if error.is_memory() => Err(LineFault::Memory),
        Err(_) => Err(LineFault::Bad {
            property: LineProperty::Line,
        }),
    }
}

/// A request where it has a `do`, whatever that is, else a question, else a receipt.
#[tactic(auto, unfolding(crate::specs::Lines::any))]
fn any(alloc: Global, object: &Value) -> Result<Asked, LineFault>
    ensures value { IsRead (said.any (view object.now)) result }
    ensures fits { IfOk result FitsAsked }
{
    if given(object, LineProperty::Do).is_some() {
        return request(alloc, object);
    }
    if given(object, LineProperty::Ask).is_some() {
        return question(alloc, object);
    }
    if given(object, LineProperty::Receipt).is_some() {
        return Ok(receipt(object)?);
    }
    Err(LineFault::Bad {
        property: LineProperty::Line,
    })
}

#[tactic(auto, unfolding(crate::specs::Lines::only_request))]
fn only_request(alloc: Global, caller: Name, object: &Value) -> Result<Asked, LineFault>
    ensures value { IsRead (said.only_request caller (view object.now)) result }
    ensures fits { IfOk result FitsAsked }
{
    if given(object, LineProperty::Do).is_some() {
        return request_of(alloc, caller, object);
    }
    Err(LineFault::Bad {
        property: LineProperty::Line,
    })
}

#[tactic(auto, unfolding(crate::specs::Lines::request))]
fn request(alloc: Global, object: &Value) -> Result<Asked, LineFault>
    ensures value { IsRead (said.request (view object.now)) result }
    ensures fits { IfOk result FitsAsked }
{
    let caller = needs_name(object, LineProperty::By)?;
    request_of(alloc, caller, object)
}

/// A request of this caller.
#[tactic(auto, unfolding(crate::specs::Lines::request_of))]
fn request_of(alloc: Global, caller: Name, object: &Value) -> Result<Asked, LineFault>
    ensures value { IsRead (said.request_of caller (view object.now)) result }
    ensures fits { IfOk result FitsAsked }
{
    let number = needs_whole(object, LineProperty::Number, u64::MAX)?;
    let word = needs_any_text(object, LineProperty::Do)?;
    let command = command(alloc, word, object)?;
    Ok(Asked::Request {
        caller,
        number,
        command,
    })
}

#[tactic(auto, unfolding(crate::specs::Lines::question))]
fn question(alloc: Global, object: &Value) -> Result<Asked, LineFault>
    ensures value { IsRead (said.question (view object.now)) result }
    ensures fits { IfOk result FitsAsked }
{
    match needs_any_text(object, LineProperty::Ask)? {
        "feed" => Ok(Asked::Query(Query::Feed {
            subscriber: needs_name(object, LineProperty::Subscriber)?,
            after: needs_whole(object, LineProperty::After, 4294967295)? as u32,
        })),
        "item" => Ok(Asked::Query(Query::Item {
            item: item(object)?,
        })),
        "queue" => Ok(Asked::Query(Query::Queue)),
        "check" => Ok(Asked::Query(Query::Check)),
        "archive" => archive(alloc, object),
        "items" => Ok(Asked::Desk(items(object)?)),
        "things" => Ok(Asked::Desk(things(object)?)),
        "reach" => Ok(Asked::Desk(reach(alloc, object)?)),
        "publications" => Ok(Asked::Desk(publications(object)?)),
        "publication" => Ok(Asked::Query(Query::Publication {
            number: needs_whole(object, LineProperty::Publication, 4294967295)? as u32,
        })),
        _ => Err(LineFault::Bad {
            property: LineProperty::Ask,
        }),
    }
}

/// A question on the archive.
#[tactic(auto, unfolding(crate::specs::Lines::archive))]
fn archive(alloc: Global, object: &Value) -> Result<Asked, LineFault>
    ensures value { IsRead (said.archive (view object.now)) result }
    ensures fits { IfOk result FitsAsked }
{
    let page = needs_whole(object, LineProperty::Page, 4294967295)? as u32;
    let query = needs_any_text(object, LineProperty::Query)?;
    Ok(Asked::Archive {
        page,
        query: Text::copy_of(alloc, query)?,
    })
}

#[tactic(auto, unfolding(crate::specs::Lines::receipt))]
fn receipt(object: &Value) -> Result<Asked, LineProperty>
    ensures value { result ≡ said.receipt (view object.now) }
    ensures fits { IfOk result FitsAsked }
{
    match given(object, LineProperty::Receipt) {
        None => Err(LineProperty::Receipt),
        Some(value) => {
            if value.is_object() {
                let subscriber = needs_name(value, LineProperty::Subscriber)?;
                receipt_of(subscriber, value)
            } else {
                Err(LineProperty::Receipt)
            }
        }
    }
}

/// A receipt of this subscriber.
#[tactic(auto, unfolding(crate::specs::Lines::receipt_of))]
fn receipt_of(subscriber: Name, object: &Value) -> Result<Asked, LineProperty>
    ensures value { result ≡ said.receipt_of subscriber (view object.now) }
    ensures fits { IfOk result FitsAsked }
{
    let n = needs_whole(object, LineProperty::N, 4294967295)? as u32;
    Ok(Asked::Receipt { subscriber, n })
}
