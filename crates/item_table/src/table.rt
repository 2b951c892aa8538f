//! The table of items.
ghost use Rattle.std.specs.Prelude.{◌≡◌, [], IfOk, Option, option_map, length, unwrap_or};
ghost use Rattle.std.specs.Option.{option_copied};
ghost use Rattle.std.specs.HashMap.{get};
ghost use Rattle.news_types.specs.declared.story.Story.{Story};
ghost use Rattle.news_types.specs.Items as items;
ghost use Rattle.item_table.specs.declared.row.Row.{Row};
ghost use Rattle.item_table.specs.Identities.{same_identity, identity_of};
ghost use Rattle.item_table.specs.Rows.{row_at, row_of};
ghost use Rattle.item_table.specs.Keeps.{Keeps};

use crate::identity::Identity;
use crate::row::{self, Row};
use crate::shared::SharedStory;
use news_types::{Memory, Moment, Name, State, Text};
use std::alloc::Global;
use std::collections::HashMap;

/// Items by their numbers from 1, and the numbers of what providers call them.
///
/// An item costs no copy of its story: it shares it with its publications.
#[derive(Drop)]
pub struct Items {
    pub(crate) alloc: Global,
    pub(crate) rows: Vec<Row>,
    pub(crate) numbers: HashMap<Identity, u32>,
}

/// What is asked of an item.
#[derive(Clone, Copy)]
pub struct ItemFacts {
    pub state: State,
    pub version: u32,
    /// When it was made where it came from, or 0.
    pub created: Moment,
}

impl Items {
    ghost use Rattle.std.specs.Prelude.{List};
    ghost use Rattle.news_types.specs.Items.{Item, item_numbered, known};
    ghost use Rattle.item_table.specs.Asked.{facts_of, story_of};

    /// With nothing in it.
    pub fn new(alloc: Global) -> Result<Items, Memory>
        ensures { IfOk result (λ items. Keeps items []) }
    {
        Ok(Items {
            alloc,
            rows: Vec::new(alloc),
            numbers: HashMap::new(alloc),
        })
    }

    /// How many there are. It takes no memory.
    pub fn len(&self) -> usize
        ensures { (items : List Item) → Keeps self.now items → result ≡ length items }
    {
        self.rows.len()
    }

    /// The state, the version and the making of an item, if it is there. It takes no memory.
    pub fn facts(&self, item: u32) -> Option<ItemFacts>
        ensures { (items : List Item) → Keeps self.now items → result ≡ option_map facts_of (item_numbered items item) }
    {
        let row = row::row_of(&self.rows, item)?;
        Some(ItemFacts {
            state: row.state,
            version: row.version,
            created: row.created,
        })
    }

    /// The story of an item, if it is there. It takes no memory.
    pub fn story(&self, item: u32) -> Option<&SharedStory>
        ensures { (items : List Item) → Keeps self.now items → option_copied result ≡ option_map story_of (item_numbered items item) }
    {
        let row = row::row_of(&self.rows, item)?;
        Some(&row.story)
    }

    /// The number of the item that the provider calls so, or 0.
    pub fn number(&self, provider: Name, identity: &Text) -> Result<u32, Memory>
        ensures { IfOk result (λ number. (items : List Item) → Keeps self.now items → number ≡ known provider identity.now items) }
    {
        let identity = Identity {
            provider,
            text: identity.copy()?,
        };
        let number = self.numbers.get(&identity).copied().unwrap_or(0);
        drop(identity);
        Ok(number)
    }
}
