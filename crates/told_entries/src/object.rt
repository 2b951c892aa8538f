//! What is told: a JSON object, and a list.
ghost use Rattle.std.specs.Prelude.{◌≡◌, false};
ghost use Rattle.serde_json.specs.View.{members_view, items_view};
ghost use Rattle.serde_json.specs.Written.{members_have_float, items_have_float};

use serde_json::{Map, Value};
use std::alloc::Global;

/// An object without a float.
#[derive(Drop)]
pub(crate) struct Told {
    pub(crate) alloc: Global,
    pub(crate) members: Map<String, Value>,
    ghost plain: { members_have_float (members_view members.entries) ≡ false },
}

/// A list without a float.
#[derive(Drop)]
pub(crate) struct Listed {
    pub(crate) alloc: Global,
    pub(crate) values: Vec<Value>,
    ghost plain: { items_have_float (items_view values.items) ≡ false },
}
