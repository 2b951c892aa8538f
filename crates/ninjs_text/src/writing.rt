//! Publications are written.
ghost use Rattle.std.specs.Prelude.{◌≡◌, ◌<◌, ◌≤◌, ◌^◌, IfOk, OnOk, Ok, Some, false, length, min};
ghost use Rattle.serde_json.specs.Data.{object, depth};
ghost use Rattle.serde_json.specs.Read.{max_depth};
ghost use Rattle.serde_json.specs.View.{members_view};
ghost use Rattle.serde_json.specs.Written.{compact_text, members_have_float};
ghost use Rattle.release_rules.specs.Civil.{last_moment};
ghost use Rattle.release_rules.specs.Reader.{moment_of};
ghost use Rattle.release_rules.specs.Writer.{moment_text};
ghost use Rattle.news_types.specs.Fits.{FitsStory};
ghost use Rattle.ninjs_text.specs.Reading.{json_of};
ghost use Rattle.ninjs_text.specs.Item.{ninjs};
ghost use Rattle.ninjs_text.specs.Told.{told};
ghost use Rattle.ninjs_text.specs.Writing as said;

use crate::members::{put_filled, put_text, put_urgency, put_version};
use crate::words::status_word;
use news_types::{Bytes, Memory, Publication, Text};
use release_rules::text_of_moment;
use serde_json::{Map, Value};
use std::alloc::{AllocError, Global};

/// The publication as one item, whose `uri` is the item's own.
///
/// A byline, copyright, headline, language or slugline that is empty is left out, and so is an urgency of 0. The category is not
/// written.
pub fn write(alloc: Global, publication: &Publication, uri: &Text) -> Result<Bytes, Memory>
    ensures value { IfOk result (λ bytes. bytes ≡ said.item_bytes publication.now uri.now) }
    // it is read again, but for the category
    ensures read_again { FitsStory publication.now.story → 0 < length uri.now → length uri.now ≤ 256 → IfOk result (λ bytes. ninjs bytes ≡ Ok (told publication.now uri.now)) }
    // a frame has room for it
    ensures size { FitsStory publication.now.story → length uri.now ≤ 256 → IfOk result (λ bytes. length bytes ≤ 4_194_240) }
{
    let members = members_of(alloc, publication, uri)?;
    written(alloc, members)
}

/// The object as bytes.
fn written(alloc: Global, members: Map<String, Value>) -> Result<Bytes, Memory>
    requires { members_have_float (members_view members.entries) ≡ false }
    ensures value { IfOk result (λ bytes. bytes ≡ compact_text (object (members_view members.entries))) }
    ensures read_again { depth (object (members_view members.entries)) ≤ max_depth → IfOk result (λ bytes. json_of bytes ≡ Some (object (members_view members.entries))) }
{
    Ok(Bytes::of(Value::Object(members).to_vec(alloc)?))
}

fn members_of(
    alloc: Global,
    publication: &Publication,
    uri: &Text,
) -> Result<Map<String, Value>, AllocError>
    ensures members { IfOk result (λ members. members_view members.entries ≡ said.members publication.now uri.now) }
    ensures plain { IfOk result (λ members. members_have_float (members_view members.entries) ≡ false) }
    ensures version { IfOk result (λ _. publication.now.version < 2 ^ 32) }
    ensures release { IfOk result (λ _. moment_of (moment_text publication.now.release) ≡ Some (min publication.now.release last_moment)) }
{
    let mut members = Map::new(alloc);
    put_texts(&mut members, alloc, publication)?;
    put_marks(&mut members, alloc, publication, uri)?;
    Ok(members)
}

/// Puts the texts of a publication, and its status.
fn put_texts(
    members: &mut Map<String, Value>,
    alloc: Global,
    publication: &Publication,
) -> Result<(), AllocError>
    ensures members { OnOk result (members_view members.new.entries ≡ said.put_texts publication.now (members_view members.old.entries)) }
    ensures plain { members_have_float (members_view members.old.entries) ≡ false → OnOk result (members_have_float (members_view members.new.entries) ≡ false) }
{
    let story = &publication.story;
    put_text(members, alloc, body_key(story.html), story.body.as_str())?;
    put_filled(members, alloc, "byline", story.byline.as_str())?;
    put_filled(members, alloc, "copyrightholder", story.copyright.as_str())?;
    put_filled(members, alloc, "headline", story.headline.as_str())?;
    put_filled(members, alloc, "language", story.language.as_str())?;
    put_text(members, alloc, "pubstatus", status_word(publication.kind))?;
    put_filled(members, alloc, "slugline", story.slugline.as_str())
}

/// Puts what else a publication says.
fn put_marks(
    members: &mut Map<String, Value>,
    alloc: Global,
    publication: &Publication,
    uri: &Text,
) -> Result<(), AllocError>
    ensures members { OnOk result (members_view members.new.entries ≡ said.put_marks publication.now uri.now (members_view members.old.entries)) }
    ensures plain { members_have_float (members_view members.old.entries) ≡ false → OnOk result (members_have_float (members_view members.new.entries) ≡ false) }
    ensures version { OnOk result (publication.now.version < 2 ^ 32) }
    ensures release { OnOk result (moment_of (moment_text publication.now.release) ≡ Some (min publication.now.release last_moment)) }
{
    put_text(members, alloc, "type", publication.story.kind.word())?;
    put_urgency(members, alloc, publication.story.urgency)?;
    put_text(members, alloc, "uri", uri.as_str())?;
    put_version(members, alloc, publication.version)?;
    let created = text_of_moment(publication.release);
    put_text(members, alloc, "versioncreated", created.as_str())
}

fn body_key(html: bool) -> &'static str
    ensures { result.now ≡ said.body_key html }
{
    if html { "body_html" } else { "body_text" }
}
