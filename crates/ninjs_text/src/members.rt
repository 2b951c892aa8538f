//! Members of an object, put in one by one: they stand in byte order of their keys.
ghost use Rattle.std.specs.Prelude.{◌≡◌, OnOk, false};
ghost use Rattle.serde_json.specs.View.{members_view};
ghost use Rattle.serde_json.specs.Written.{members_have_float};
ghost use Rattle.ninjs_text.specs.Writing as said;

use serde_json::{Map, Value};
use std::alloc::{AllocError, Global};

/// Puts a text at a key.
pub(crate) fn put_text(
    members: &mut Map<String, Value>,
    alloc: Global,
    key: &str,
    text: &str,
) -> Result<(), AllocError>
    ensures members { OnOk result (members_view members.new.entries ≡ said.put_text key.now text.now (members_view members.old.entries)) }
    ensures plain { members_have_float (members_view members.old.entries) ≡ false → OnOk result (members_have_float (members_view members.new.entries) ≡ false) }
{
    serde_json::put(members, alloc, key, Value::try_from_str(alloc, text)?)
}

/// Puts a text at a key, unless it is empty.
pub(crate) fn put_filled(
    members: &mut Map<String, Value>,
    alloc: Global,
    key: &str,
    text: &str,
) -> Result<(), AllocError>
    ensures members { OnOk result (members_view members.new.entries ≡ said.put_filled key.now text.now (members_view members.old.entries)) }
    ensures plain { members_have_float (members_view members.old.entries) ≡ false → OnOk result (members_have_float (members_view members.new.entries) ≡ false) }
{
    if text.is_empty() {
        return Ok(());
    }
    put_text(members, alloc, key, text)
}

/// Puts an urgency, unless it is 0.
pub(crate) fn put_urgency(
    members: &mut Map<String, Value>,
    alloc: Global,
    urgency: u8,
) -> Result<(), AllocError>
    ensures members { OnOk result (members_view members.new.entries ≡ said.put_urgency urgency (members_view members.old.entries)) }
    ensures plain { members_have_float (members_view members.old.entries) ≡ false → OnOk result (members_have_float (members_view members.new.entries) ≡ false) }
{
    if urgency == 0 {
        return Ok(());
    }
    serde_json::put(members, alloc, "urgency", Value::from(urgency as u64))
}

/// Puts a version, as a text.
pub(crate) fn put_version(
    members: &mut Map<String, Value>,
    alloc: Global,
    version: u32,
) -> Result<(), AllocError>
    ensures members { OnOk result (members_view members.new.entries ≡ said.put_version version (members_view members.old.entries)) }
    ensures plain { members_have_float (members_view members.old.entries) ≡ false → OnOk result (members_have_float (members_view members.new.entries) ≡ false) }
{
    let text = format!(in alloc; "{}", version)?;
    put_text(members, alloc, "version", text.as_str())
}
