//! Subscribers are added, and memory is taken.
ghost use Rattle.std.specs.Prelude.{◌≡◌, false, [], ◌∷◌, IfOk, OnOk};
ghost use Rattle.news_types.specs.Names.{Bytes, is_in};
ghost use Rattle.publish_queue.specs.Keeps.{Facts, Keeps, HasRoom, HasSpare, nothing};

use crate::queue::{Feeds, Queue};
use crate::release::fit_places;
use crate::waiting::WaitingList;
use news_types::{Due, Memory, Moment, Name};
use std::alloc::Global;

impl Queue {
    /// Without a subscriber or a publication.
    pub fn new(alloc: Global) -> Result<Queue, Memory>
        ensures { IfOk result (λ queue. Keeps queue nothing) }
    {
        Ok(Queue {
            alloc,
            moment: 0,
            feeds: Feeds::new(alloc),
            waiting: WaitingList::new(alloc),
            next: None,
        })
    }

    /// Takes the memory for one more subscriber. The feeds stay as they are, also without it.
    pub fn reserve_subscriber(&mut self) -> Result<(), Memory>
        ensures keeps { (f : Facts) → Keeps self.old f → Keeps self.new f }
        ensures ok { OnOk result (HasSpare self.new) }
    {
        self.feeds.reserve_subscriber()
    }

    /// Takes the memory for one more publication of that number, with its own release and that for
    /// each of those to whom it is due. The feeds stay as they are, also without it.
    ///
    /// A number of 0 or above 67,108,863, or a release from second 274,877,906,944 on, has no place
    /// to wait in, and the answer is `Memory` too. No newsroom comes there: it takes 262,144
    /// publications, and its moments end with the year 9999.
    pub fn reserve_for(&mut self, number: u32, release: Moment, due: &[Due]) -> Result<(), Memory>
        ensures keeps { (f : Facts) → Keeps self.old f → Keeps self.new f }
        ensures ok { OnOk result (HasRoom self.new number release due.now) }
        ensures spare { HasSpare self.old → HasSpare self.new }
    {
        if !fit_places(number, release, due) {
            return Err(Memory);
        }
        self.waiting.reserve()?;
        self.feeds.reserve_for(due)
    }

    /// Adds a subscriber with an empty feed, unless it is there. It takes no memory.
    pub fn add_subscriber(&mut self, name: Name)
        requires { HasSpare self.old }
        ensures keeps { (f : Facts) → Keeps self.old f → is_in name f.names ≡ false →
            Keeps self.new (record f { names = name ∷ f.names }) }
    {
        self.feeds.add_subscriber(self.alloc, name);
    }
}
