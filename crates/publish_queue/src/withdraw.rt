//! Publications that wait are withdrawn.
ghost use Rattle.std.specs.Prelude.{ℕ, List, [], ◌∷◌};
ghost use Rattle.news_types.specs.declared.query.Due.{Due};
ghost use Rattle.news_types.specs.Names.{Bytes};
ghost use Rattle.news_types.specs.Due.{taken_back};
ghost use Rattle.publish_queue.specs.Keeps.{Facts, Keeps, HasRoom};
ghost use Rattle.publish_queue.specs.Withdrawn.{without_number, Waits, HasRelease, withdrawn_for, WaitsFor, HasReleaseTo, AreOfItem, AreWithin};

use crate::coming::next_of;
use crate::queue::Queue;
use crate::release::Span;
use news_types::{Moment, Name};

impl Queue {
    /// Withdraws a publication that waits, for everybody: it will be in no feed. Its own release is given, and a span for each
    /// subscriber for whom it waits, in which its release to it is. It takes no memory, and looks only at what is released then.
    pub fn withdraw(&mut self, number: u32, release: Moment, spans: &[Span])
        ensures keeps { (f : Facts) →
            Keeps self.old f → Waits number f.moment f.publications → HasRelease number release f.publications → AreWithin f.moment (number ∷ []) spans.now f.publications →
            Keeps self.new (record f { publications = without_number number f.publications }) }
        ensures room { (number release : ℕ) (due : List Due) → HasRoom self.old number release due → HasRoom self.new number release due }
    {
        let numbers = [number];
        self.waiting.remove(&numbers, release, release);
        self.feeds.withdraw_all(&numbers, spans);
        self.next = next_of(&self.waiting, &self.feeds.feeds);
    }

    /// Withdraws a publication that waits for a subscriber, for this one alone. Its release to it is given. It takes no memory,
    /// and looks only at what is released then.
    pub fn withdraw_for(&mut self, subscriber: &Name, number: u32, release: Moment)
        ensures keeps { (f : Facts) →
            Keeps self.old f → WaitsFor subscriber.now number f.moment f.publications → HasReleaseTo subscriber.now number release f.publications →
            Keeps self.new (record f { publications = withdrawn_for subscriber.now number f.publications }) }
        ensures room { (number release : ℕ) (due : List Due) → HasRoom self.old number release due → HasRoom self.new number release due }
    {
        self.feeds
            .withdraw_one(subscriber, &[number], release, release);
        self.next = next_of(&self.waiting, &self.feeds.feeds);
    }

    /// Withdraws an item's publications for each of those to whom they are not released yet, as a kill does. A span is given for
    /// each subscriber for whom one waits, in which they are released to it. It takes no memory, and looks only at what is
    /// released within the spans.
    pub fn take_back(&mut self, numbers: &[u32], spans: &[Span])
        ensures keeps { (f : Facts) (i : ℕ) →
            Keeps self.old f → AreOfItem f.moment i numbers.now f.publications → AreWithin f.moment numbers.now spans.now f.publications →
            Keeps self.new (record f { publications = taken_back f.moment i f.publications }) }
        ensures room { (number release : ℕ) (due : List Due) → HasRoom self.old number release due → HasRoom self.new number release due }
    {
        self.feeds.withdraw_all(numbers, spans);
        self.next = next_of(&self.waiting, &self.feeds.feeds);
    }
}
