//! Pages of numbers.
ghost use Rattle.std.specs.Prelude.{◌≡◌, ◌<◌, ◌≤◌, ◌⊎◌, ◌+◌, ◌*◌, ◌++◌, [], ◌∷◌, ℕ, List, OnOk, MatchBool, length};
ghost use Rattle.archive_search.specs.Pages.{IsPageOf};

use news_types::Memory;
use std::alloc::Global;
use std::marker::Model;

/// The most numbers of a page.
const MOST_ROWS: usize = 100;

/// Numbers, in order.
#[derive(Drop)]
pub struct Numbers {
    items: Vec<u32>,
}

impl Model for Numbers {
    ghost use Rattle.std.specs.Prelude.{ℕ, List};

    ghost Value = { List ℕ };

    ghost view = { λ a. a.items.items };
}

impl Numbers {
    /// None.
    fn new(alloc: Global) -> Numbers
        ensures { result ≡ [] }
    {
        Numbers {
            items: Vec::new(alloc),
        }
    }

    /// How many there are.
    fn len(&self) -> usize
        ensures { result ≡ length self.now }
    {
        self.items.len()
    }

    /// Puts one more behind them.
    fn push(&mut self, number: u32) -> Result<(), Memory>
        ensures { OnOk result (self.new ≡ self.old ++ number ∷ []) }
    {
        self.items.push(number)?;
        Ok(())
    }

    /// The numbers.
    pub fn as_slice(&self) -> &[u32]
        ensures { result.now ≡ self.now }
    {
        self.items.as_slice()
    }
}

/// A page of numbers, of so many.
#[derive(Drop)]
pub struct Page {
    pub total: u32,
    pub rows: Numbers,
}

impl Page {
    /// A page of none.
    pub(crate) fn new(alloc: Global) -> Page
        ensures { (page : ℕ) → IsPageOf [] page result }
    {
        Page {
            total: 0,
            rows: Numbers::new(alloc),
        }
    }

    /// Whether the next number has its place on the page.
    fn takes_next(&self, page: u32) -> bool
        ensures { MatchBool result ((100 * page ≤ self.now.total) × (length self.now.rows < 100)) ((self.now.total < 100 * page) ⊎ (100 ≤ length self.now.rows)) }
    {
        u64::from(self.total) >= u64::from(page) * 100 && self.rows.len() < MOST_ROWS
    }

    /// One number more, which is on the page where its place is. Behind an error it may be counted and not be there.
    pub(crate) fn add(&mut self, page: u32, number: u32) -> Result<(), Memory>
        requires { self.old.total < 4294967295 }
        ensures page { (numbers : List ℕ) → IsPageOf numbers page self.old → OnOk result (IsPageOf (numbers ++ number ∷ []) page self.new) }
        ensures total { self.new.total ≡ self.old.total + 1 }
    {
        let takes = self.takes_next(page);
        self.total += 1;
        if !takes {
            return Ok(());
        }
        self.rows.push(number)
    }
}
