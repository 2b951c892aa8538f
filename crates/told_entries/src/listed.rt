//! Lists that are told: of names, of texts, of words and of objects.
ghost use Rattle.std.specs.Prelude.{◌≡◌, IfOk, false};
ghost use Rattle.serde_json.specs.Data as json;
ghost use Rattle.serde_json.specs.Data.{item, no_items};
ghost use Rattle.serde_json.specs.View.{view};
ghost use Rattle.serde_json.specs.Written.{has_float};
ghost use Rattle.told_objects.specs.Members.{objects};
ghost use Rattle.told_entries.specs.Members.{strings};
ghost use Rattle.told_entries.specs.Seen.{seen, seen_items, items_then, text_if};

use crate::object::{Listed, Told};
use news_types::{Name, Text};
use serde_json::Value;
use std::alloc::{AllocError, Global};

impl Listed {
    /// A list of nothing.
    pub(crate) fn new(alloc: Global) -> Listed
        ensures { seen_items result ≡ no_items }
    {
        Listed {
            alloc,
            values: Vec::new(alloc),
        }
    }

    /// The list with one value more.
    fn with(self, value: Value) -> Result<Listed, AllocError>
        requires { has_float (view value) ≡ false }
        ensures { IfOk result (λ list. seen_items list
            ≡ items_then (seen_items self) (item (view value) no_items)) }
    {
        let Listed { alloc, mut values } = self;
        values.push(value)?;
        Ok(Listed { alloc, values })
    }

    /// The list with a text more.
    fn text(self, text: &str) -> Result<Listed, AllocError>
        ensures { IfOk result (λ list. seen_items list
            ≡ items_then (seen_items self) (item (json.string text.now) no_items)) }
    {
        let value = Value::try_from_str(self.alloc, text)?;
        self.with(value)
    }

    /// The list with a text more, where it is there.
    #[tactic(auto, unfolding(crate::specs::Seen::text_if))]
    pub(crate) fn text_if(self, there: bool, text: &str) -> Result<Listed, AllocError>
        ensures { IfOk result (λ list. seen_items list ≡ text_if there text.now (seen_items self)) }
    {
        if !there {
            return Ok(self);
        }
        self.text(text)
    }

    /// The list as a value.
    pub(crate) fn into_value(self) -> Value
        ensures value { view result ≡ json.array (seen_items self) }
        ensures plain { has_float (view result) ≡ false }
    {
        Value::Array(self.values)
    }
}

/// A row that is told as an object.
pub(crate) trait Shown {
    ghost members: { Self → json.Members };

    /// The row's object.
    fn shown(&self, alloc: Global) -> Result<Told, AllocError>
        ensures { IfOk result (λ told. seen told ≡ members self.now) };
}

/// The list of these names.
pub(crate) fn names(alloc: Global, rows: &[Name]) -> Result<Listed, AllocError>
    ensures { IfOk result (λ list. seen_items list ≡ strings rows.now) }
{
    let mut list = Listed::new(alloc);
    for row in rows {
        list = list.text(row.as_str())?;
    }
    Ok(list)
}

/// The list of these texts.
pub(crate) fn texts(alloc: Global, rows: &[Text]) -> Result<Listed, AllocError>
    ensures { IfOk result (λ list. seen_items list ≡ strings rows.now) }
{
    let mut list = Listed::new(alloc);
    for row in rows {
        list = list.text(row.as_str())?;
    }
    Ok(list)
}

/// The list of the objects of these rows.
pub(crate) fn objects_of<T: Shown>(alloc: Global, rows: &[T]) -> Result<Listed, AllocError>
    ensures { IfOk result (λ list. seen_items list ≡ objects T.members rows.now) }
{
    let mut list = Listed::new(alloc);
    for row in rows {
        list = list.with(row.shown(alloc)?.into_value())?;
    }
    Ok(list)
}
