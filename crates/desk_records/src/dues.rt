//! What publications were made due to, and whether that stands.
ghost use Rattle.std.specs.Prelude.{◌≡◌, IfOk, [], is_some};
ghost use Rattle.news_types.specs.History.{History};
ghost use Rattle.news_types.specs.Publications.{standing};
ghost use Rattle.feed_reasons.specs.Courses.{numbered};
ghost use Rattle.desk_records.specs.Dues.{KeepsDues, due_fact};

use crate::rows::{Row, row_of};
use news_types::{Memory, Moment, Name};
use std::alloc::Global;
use std::collections::HashMap;

/// The release, in seconds since 1970, with which a publication was made due to a subscriber, and whether it stands for it with
/// that release: it was not withdrawn, nor taken back before.
#[derive(Clone, Copy)]
pub struct DueFact {
    pub release: Moment,
    pub stands: bool,
}

/// What each publication was made due to, and whether that stands.
#[derive(Drop)]
pub struct Dues {
    pub(crate) alloc: Global,
    /// The subscribers, each with its place in the order of their being added.
    pub(crate) places: HashMap<Name, usize>,
    /// The publications, by their numbers.
    pub(crate) rows: Vec<Row>,
}

impl Dues {
    /// With nothing in it.
    pub fn new(alloc: Global) -> Result<Dues, Memory>
        ensures { IfOk result (λ dues. KeepsDues dues []) }
    {
        Ok(Dues {
            alloc,
            places: HashMap::new(alloc),
            rows: Vec::new(alloc),
        })
    }

    /// The release with which the publication of that number was made due to the subscriber, if it was, and whether that
    /// stands. It takes no memory.
    pub fn due(&self, publication: u32, subscriber: &Name) -> Option<DueFact>
        ensures { (h : History) → KeepsDues self.now h → result ≡ due_fact h publication subscriber.now }
    {
        let place = *self.places.get(subscriber)?;
        row_of(&self.rows, publication)?.fact(place)
    }

    /// Whether the publication of that number is there, and was not withdrawn. It takes no memory.
    pub fn stands(&self, publication: u32) -> bool
        ensures { (h : History) → KeepsDues self.now h → result ≡ is_some (numbered publication (standing h)) }
    {
        match row_of(&self.rows, publication) {
            None => false,
            Some(row) => row.stands,
        }
    }
}
