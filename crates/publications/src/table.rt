//! The table of publications.
ghost use Rattle.std.specs.Prelude.{◌≡◌, [], ℕ, IfOk, List, Option, length, nat_eq, option_map, unwrap_or};
ghost use Rattle.std.specs.Option.{option_copied};
ghost use Rattle.std.specs.HashMap.{get};
ghost use Rattle.news_types.specs.Names.{Bytes, is_in};
ghost use Rattle.news_types.specs.Due.{Pub, standing_first, targets_of, release_to, had, had_by, latest};
ghost use Rattle.news_types.specs.Answers.{last_of, number_of};
ghost use Rattle.publications.specs.Numbers.{numbers_of};
ghost use Rattle.publications.specs.Keeps.{Keeps, row_at, pub_at, shown, facts_of, subscribers_in, is_given};

use crate::numbers::{last_below, numbers_of};
use item_table::SharedStory;
use news_types::{Due, Kind, Memory, Moment, Name, Names};
use std::alloc::Global;
use std::collections::HashMap;

/// What is kept of a publication. Its story is owned by its item too, as long as that has it.
#[derive(Drop)]
pub struct Published {
    pub item: u32,
    pub version: u32,
    pub kind: Kind,
    pub release: Moment,
    pub story: SharedStory,
}

/// What stands of an item that is published, or waits to be: its first publication; the first release of what stands for
/// each to whom something is due; and to whom its newest is due, who are the same, with its release for each.
#[derive(Drop)]
pub struct OfItem {
    pub number: u32,
    pub release: Moment,
    pub targets: Names,
    pub soonest: Vec<Due>,
    pub newest: Vec<Due>,
}

/// The number and the release of an item's standing first publication.
#[derive(Clone, Copy)]
pub struct FirstFacts {
    pub number: u32,
    pub release: Moment,
}

/// Publications, and what stands of each item.
#[derive(Drop)]
pub struct Publications {
    pub(crate) alloc: Global,
    pub(crate) rows: Vec<Published>,
    pub(crate) firsts: HashMap<u32, OfItem>,
    /// The numbers of each item's publications.
    pub(crate) numbers: HashMap<u32, Vec<u32>>,
}

impl Publications {
    /// With nothing in it.
    pub fn new(alloc: Global) -> Result<Publications, Memory>
        ensures { IfOk result (λ publications. Keeps publications [] []) }
    {
        Ok(Publications {
            alloc,
            rows: Vec::new(alloc),
            firsts: HashMap::new(alloc),
            numbers: HashMap::new(alloc),
        })
    }

    /// How many there are, with those that were withdrawn. It takes no memory.
    pub fn len(&self) -> usize
        ensures { (ps st : List Pub) → Keeps self.now ps st → result ≡ length ps }
    {
        self.rows.len()
    }

    /// The publication of that number, if it is there. It takes no memory.
    pub fn published(&self, number: u32) -> Option<&Published>
        ensures { (ps st : List Pub) → Keeps self.now ps st → option_copied result ≡ option_map shown (pub_at ps number) }
    {
        row_of(&self.rows, number)
    }

    /// The number and the release of the item's standing first publication, if there is one. It takes no memory.
    pub fn first(&self, item: u32) -> Option<FirstFacts>
        ensures { (ps st : List Pub) → Keeps self.now ps st → result ≡ option_map facts_of (standing_first item st) }
    {
        let of = self.firsts.get(&item)?;
        Some(FirstFacts {
            number: of.number,
            release: of.release,
        })
    }

    /// The targets of the item's standing first publication; none where there is none. It takes no memory.
    pub fn targets(&self, item: u32) -> &[Name]
        ensures { (ps st : List Pub) → Keeps self.now ps st → result.now ≡ targets_of (standing_first item st) }
    {
        match self.firsts.get(&item) {
            Some(of) => of.targets.as_slice(),
            None => &[],
        }
    }

    /// To whom a standing publication of the item is due, and the first release of one to each. It takes no memory.
    pub fn soonest(&self, item: u32) -> &[Due]
        ensures had { (ps st : List Pub) → Keeps self.now ps st → (s : Bytes) → is_in s (subscribers_in result.now) ≡ had st item s }
        ensures given { (ps st : List Pub) → Keeps self.now ps st → (m : ℕ) (s : Bytes) → is_given m s result.now ≡ had_by m st item s }
    {
        match self.firsts.get(&item) {
            Some(of) => of.soonest.as_slice(),
            None => &[],
        }
    }

    /// To whom the newest publication of the item is due, and its release to each, which is the latest. It takes no memory.
    pub fn newest(&self, item: u32) -> &[Due]
        ensures { (ps st : List Pub) → Keeps self.now ps st → (s : Bytes) → unwrap_or (release_to s result.now) 0 ≡ latest st item s }
    {
        match self.firsts.get(&item) {
            Some(of) => of.newest.as_slice(),
            None => &[],
        }
    }

    /// The numbers of the item's publications, in order, with those that were withdrawn. It takes no memory.
    pub fn numbers(&self, item: u32) -> &[u32]
        ensures { (ps st : List Pub) → Keeps self.now ps st → result.now ≡ numbers_of item ps }
    {
        numbers_of(&self.numbers, item)
    }

    /// The number of the item's newest publication whose number is below this one, with those that were withdrawn, or 0. It
    /// takes no memory.
    pub fn last_of(&self, item: u32, below: u32) -> u32
        ensures { (ps st : List Pub) → Keeps self.now ps st → result ≡ number_of (last_of item below ps) }
    {
        last_below(numbers_of(&self.numbers, item), below)
    }
}

/// The row of that number, from 1.
fn row_of(rows: &[Published], number: u32) -> Option<&Published>
    ensures { option_copied result ≡ row_at rows.now number }
{
    if number == 0 {
        return None;
    }
    rows.get(number as usize - 1)
}
