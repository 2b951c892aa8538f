//! Segments.

ghost use Rattle.std.specs.Prelude.{◌≡◌};

use news_types::Entry;
use std::marker::Model;

/// Entries, in order.
#[derive(Drop)]
pub struct Entries {
    items: Vec<Entry>,
}

impl Model for Entries {
    ghost use Rattle.std.specs.Prelude.{List};
    ghost use Rattle.news_types.specs.declared.entry.Entry.{Entry};

    ghost Value = { List Entry };

    ghost view = { λ a. a.items.items };
}

impl Entries {
    /// These entries.
    pub fn of(items: Vec<Entry>) -> Entries
        ensures { result ≡ items.items }
    {
        Entries { items }
    }

    /// The entries.
    pub fn as_slice(&self) -> &[Entry]
        ensures { result.now ≡ self.now }
    {
        self.items.as_slice()
    }
}

/// Entries behind the first so many of a list.
#[derive(Drop)]
pub struct Segment {
    /// How many entries of the list stand before them.
    pub base: u64,
    pub entries: Entries,
}
