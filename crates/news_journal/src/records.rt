//! Records of a log.
ghost use Rattle.std.specs.Prelude.{◌≡◌};

use news_io::Record;
use std::marker::Model;

/// Records of a log, in order. A contract sees them as their list.
#[derive(Drop)]
pub struct Records {
    items: Vec<Record>,
}

impl Model for Records {
    ghost use Rattle.std.specs.Prelude.{List};
    ghost use Rattle.news_io.specs.declared.record.Record.{Record};

    ghost Value = { List Record };

    ghost view = { λ a. a.items.items };
}

impl Records {
    /// These records.
    pub fn of(items: Vec<Record>) -> Records
        ensures { result ≡ items.items }
    {
        Records { items }
    }

    /// The records.
    pub fn as_slice(&self) -> &[Record]
        ensures { result.now ≡ self.now }
    {
        self.items.as_slice()
    }
}
