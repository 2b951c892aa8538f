//! Publications are added and released.
ghost use Rattle.std.specs.Prelude.{◌≡◌, ℕ, true, ◌≤◌, List, ◌∷◌};
ghost use Rattle.std.specs.List.{list_any};
ghost use Rattle.news_types.specs.declared.query.Due.{Due};
ghost use Rattle.news_types.specs.Names.{Bytes, is_in};
ghost use Rattle.news_types.specs.Due.{Pub, release_to, is_due};
ghost use Rattle.news_types.specs.Legal.{is_coming};
ghost use Rattle.publish_queue.specs.Order.{Differ};
ghost use Rattle.publish_queue.specs.Many.{names_in};
ghost use Rattle.publish_queue.specs.Keeps.{Facts, Keeps, HasRoom, IsFair};

use crate::coming::{next_of, next_with};
use crate::queue::Queue;
use crate::release::Release;
use news_types::{Due, Moment};

impl Queue {
    /// Adds a publication with its own release, and that for each of those to whom it is due, which
    /// is none before its own. It takes no memory.
    pub fn add(&mut self, number: u32, release: Moment, due: &[Due])
        requires room { HasRoom self.old number release due.now }
        requires differ { Differ (names_in due.now) }
        ensures keeps { (f : Facts) (p : Pub) →
            Keeps self.old f → f.moment ≤ release → p.number ≡ number → p.release ≡ release →
            ((s : Bytes) → release_to s p.due ≡ release_to s due.now) → IsFair p → ((s : Bytes) → is_due s p ≡ true → is_in s f.names ≡ true) →
            Keeps self.new (record f { publications = p ∷ f.publications }) }
    {
        let waiting = Release {
            moment: release,
            number,
        };
        self.waiting.add_later(waiting, self.moment);
        self.next = next_with(self.next, release, due, self.moment);
        self.feeds.add(number, due, self.moment);
    }

    /// Whether a publication waits that is released by the moment, or one that is to a subscriber.
    pub fn waits_until(&self, moment: Moment) -> bool
        ensures { (f : Facts) → Keeps self.now f → result ≡ list_any (is_coming f.moment moment) f.publications }
    {
        match self.next {
            Some(next) => next <= moment,
            None => false,
        }
    }

    /// Goes on to a moment: what is released by then is in the feeds. It takes no memory, and
    /// costs nothing where nothing is released.
    pub fn advance(&mut self, moment: Moment)
        ensures keeps { (f : Facts) → Keeps self.old f → f.moment ≤ moment → Keeps self.new (record f { moment = moment }) }
        ensures room { (number release : ℕ) (due : List Due) → HasRoom self.old number release due → HasRoom self.new number release due }
    {
        if !self.waits_until(moment) {
            self.moment = moment;
            return;
        }
        self.waiting.advance(moment);
        self.feeds.advance(moment);
        self.next = next_of(&self.waiting, &self.feeds.feeds);
        self.moment = moment;
    }
}
