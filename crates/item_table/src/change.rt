//! Changes of the table: their memory is taken first, and they are made later without any.
ghost use Rattle.std.specs.Prelude.{◌≡◌, ◌<◌, ◌++◌, [], ◌∷◌, ℕ, List, Some, None, IfOk, OnOk, if◌then◌else◌, vec_len, vec_capacity};
ghost use Rattle.std.specs.HashMap.{get, spare};
ghost use Rattle.news_types.specs.Items.{Item};
ghost use Rattle.item_table.specs.declared.identity.Identity.{Identity};
ghost use Rattle.item_table.specs.declared.change.Step.TheVariants as step;
ghost use Rattle.item_table.specs.Identities.{same_identity, identity_of};
ghost use Rattle.item_table.specs.Rows.{new_row, set_to};
ghost use Rattle.item_table.specs.Keeps.{Keeps};
ghost use Rattle.item_table.specs.Steps.{HasPlace, HasRoom, IsFor, Makes, Sets};

use crate::identity::Identity;
use crate::row::{self, Row, Setting};
use crate::shared::SharedStory;
use crate::table::Items;
use news_types::{Memory, Moment, Name, State, Text};
use std::collections::HashMap;

/// What a change does.
#[derive(Drop)]
pub(crate) enum Step {
    Make { row: Row, key: Option<Identity> },
    Set { item: u32, to: Setting },
    Nothing,
}

/// A change of the table, with the memory for it taken. One that is dropped changes nothing.
#[derive(Drop)]
pub struct ItemChange {
    pub(crate) step: Step,
}

impl ItemChange {
    /// One that does nothing.
    pub fn nothing() -> ItemChange
        ensures { result.step ≡ step.Nothing }
    {
        ItemChange {
            step: Step::Nothing,
        }
    }

    /// Sets an item.
    pub fn set(item: u32, to: Setting) -> ItemChange
        ensures { result.step ≡ step.Set item to }
    {
        ItemChange {
            step: Step::Set { item, to },
        }
    }
}

impl Items {
    /// Takes the memory for an item that a desk makes. The items stay as they are, also where memory is wanting.
    pub fn prepare_new(&mut self, state: State, story: SharedStory) -> Result<ItemChange, Memory>
        ensures stays { (items : List Item) → Keeps self.old items → Keeps self.new items }
        ensures room { IfOk result (λ change. HasRoom self.new change) }
        ensures change { IfOk result (λ change. change.step ≡ step.Make (new_row state story 0) None) }
    {
        self.rows.reserve(1)?;
        Ok(ItemChange {
            step: Step::Make {
                row: new_row(state, story, 0),
                key: None,
            },
        })
    }

    /// Takes the memory for an item that comes in. The items stay as they are, also where memory is wanting.
    pub fn prepare_come(
        &mut self,
        state: State,
        story: SharedStory,
        provider: Name,
        identity: &Text,
        created: Moment,
    ) -> Result<ItemChange, Memory>
        ensures stays { (items : List Item) → Keeps self.old items → Keeps self.new items }
        ensures room { IfOk result (λ change. HasRoom self.new change) }
        ensures change { IfOk result (λ change. change.step ≡ step.Make (new_row state story created) (Some (identity_of provider identity.now))) }
    {
        let key = Identity {
            provider,
            text: identity.copy()?,
        };
        self.rows.reserve(1)?;
        reserve_number(&mut self.numbers)?;
        Ok(ItemChange {
            step: Step::Make {
                row: new_row(state, story, created),
                key: Some(key),
            },
        })
    }

    /// Makes a change. It takes no memory. Nothing may have been committed since the change was prepared.
    pub fn commit(&mut self, change: ItemChange)
        requires room { HasRoom self.old change }
        requires few { vec_len self.old.rows < 4294967295 }
        ensures { (before after : List Item) → Keeps self.old before → IsFor change before after → Keeps self.new after }
    {
        let ItemChange { step } = change;
        match step {
            Step::Make { row, key } => self.make(row, key),
            Step::Set { item, to } => self.set(item, to),
            Step::Nothing => {}
        }
    }

    /// Sets an item.
    fn set(&mut self, item: u32, to: Setting)
        ensures { (before after : List Item) → Keeps self.old before → Sets item (set_to to) before after → Keeps self.new after }
    {
        row::set(&mut self.rows, item, to);
    }

    /// Makes an item.
    fn make(&mut self, row: Row, key: Option<Identity>)
        requires room { vec_len self.old.rows < vec_capacity self.old.rows }
        requires place { HasPlace self.old key }
        requires few { vec_len self.old.rows < 4294967295 }
        ensures { (before after : List Item) → Keeps self.old before → Makes row key before after → Keeps self.new after }
    {
        self.rows.push_reserved(row);
        if let Some(key) = key {
            put_number(&mut self.numbers, key, self.rows.len() as u32);
        }
    }
}

/// A row at its making.
fn new_row(state: State, story: SharedStory, created: Moment) -> Row
    ensures { result ≡ new_row state story created }
{
    Row {
        state,
        version: 1,
        story,
        created,
    }
}

/// Takes the memory for one more number.
fn reserve_number(numbers: &mut HashMap<Identity, u32>) -> Result<(), Memory>
    ensures same { (key : Identity) → get same_identity numbers.new key ≡ get same_identity numbers.old key }
    ensures ok { OnOk result (0 < spare numbers.new) }
{
    numbers.reserve(1)?;
    Ok(())
}

/// Gives an identity its number. It takes no memory.
fn put_number(numbers: &mut HashMap<Identity, u32>, key: Identity, number: u32)
    requires { 0 < spare numbers.old }
    ensures { (other : Identity) → get same_identity numbers.new other ≡ (if same_identity key other then Some number else get same_identity numbers.old other) }
{
    let _ = numbers.insert(key, number);
}
