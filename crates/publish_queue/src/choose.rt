//! Which feed is pushed next.
ghost use Rattle.std.specs.Prelude.{◌≡◌};
ghost use Rattle.news_types.specs.History.{History};
ghost use Rattle.news_types.specs.Delivery.{choice};
ghost use Rattle.publish_queue.specs.Keeps.{Facts, Keeps, KeepsFactsOf};
ghost use Rattle.publish_queue.specs.Choice.{first_among, soonest, later_moment_of, ready_of};

use crate::coming::sooner_of;
use crate::queue::Queue;
use crate::turns::Turn;
use news_types::{Moment, Name, Ready};

impl Queue {
    /// The ready feed among those of these names whose moment is the least, and of those with one
    /// moment the one with the lesser name. Where none is ready, the least moment at which one may
    /// be, if nothing else happens: paused feeds, and names that are no subscriber, give none.
    pub fn next_ready(&self, names: &[Name], moment: Moment) -> Ready
        ensures { (h : History) → KeepsFactsOf self.now h → result ≡ choice h names.now moment }
    {
        match self.first_ready(names, moment) {
            Some(ready) => ready,
            None => Ready::Later {
                next: self.next_moment(names),
            },
        }
    }

    // The first feed in turn, with the entry that it goes on with.
    fn first_ready(&self, names: &[Name], moment: Moment) -> Option<Ready>
        ensures { (f : Facts) → Keeps self.now f → result ≡ ready_of f names.now moment }
    {
        let turn = first_turn(&self.feeds.turns.turns, names, moment)?;
        let at = self.feeds.find(&turn.name)?;
        let k = self.feeds.feeds[at].next_entry()?;
        Some(Ready::Now {
            subscriber: turn.name,
            k,
        })
    }

    // The least moment at which one of these may be ready.
    fn next_moment(&self, names: &[Name]) -> Option<Moment>
        ensures { (f : Facts) → Keeps self.now f → result ≡ soonest (later_moment_of f) names.now }
    {
        let mut next = None;
        for name in names {
            next = sooner_of(next, self.later_moment(name));
        }
        next
    }

    // The moment at which a feed may be ready.
    fn later_moment(&self, name: &Name) -> Option<Moment>
        ensures { (f : Facts) → Keeps self.now f → result ≡ later_moment_of f name.now }
    {
        let at = self.feeds.find(name)?;
        self.feeds.feeds[at].later_moment()
    }
}

// The first turn, up to the moment, of one of these.
fn first_turn(turns: &[Turn], names: &[Name], moment: Moment) -> Option<Turn>
    ensures { result ≡ first_among names.now moment turns.now }
{
    for turn in turns {
        if turn.moment > moment {
            return None;
        }
        if turn.name.is_among(names) {
            return Some(*turn);
        }
    }
    None
}
