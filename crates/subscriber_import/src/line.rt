//! What becomes of the records of a table.
ghost use Rattle.std.specs.Prelude.{◌≡◌};

use news_types::Denial;
use std::marker::Model;

/// What became of a record.
#[derive(Clone, Copy, PartialEq, Eq)]
pub enum Line {
    /// The subscriber was added.
    Added,
    /// The subscriber was there already: nothing was asked for.
    There,
    /// The record has not four fields, or one is not of its form.
    Bad,
    /// It was denied, for the first reason in their order.
    Denied(Denial),
}

/// What became of the records behind the head, in order.
#[derive(Drop)]
pub struct Lines {
    items: Vec<Line>,
}

impl Model for Lines {
    ghost use Rattle.std.specs.Prelude.{List};
    ghost use Rattle.subscriber_import.specs.declared.line.Line.{Line};

    ghost Value = { List Line };

    ghost view = { λ a. a.items.items };
}

impl Lines {
    /// These.
    pub fn of(items: Vec<Line>) -> Lines
        ensures { result ≡ items.items }
    {
        Lines { items }
    }

    /// What became of each.
    pub fn as_slice(&self) -> &[Line]
        ensures { result.now ≡ self.now }
    {
        self.items.as_slice()
    }
}
