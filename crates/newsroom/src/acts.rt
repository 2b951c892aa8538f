//! The server's own acts: the feeds go on, an attempt, a receipt, a halt. None of it takes memory.
ghost use Rattle.std.specs.Prelude.{◌≡◌, ◌<◌, ◌≤◌, ◌∷◌, ◌&&◌, MatchResult, nat_lt, IsTrue, length, None, Some};
ghost use Rattle.news_types.specs.History.{History, moment as last_moment};
ghost use Rattle.news_types.specs.declared.entry.Act.TheVariants as acts;
ghost use Rattle.story_tables.specs.Keeps.{KeepsStories};
ghost use Rattle.news_types.specs.Legal.{IsLegal};
ghost use Rattle.news_types.specs.Delivery.{acked, choice};
ghost use Rattle.news_types.specs.Denial.{receipt_denial};
ghost use Rattle.news_types.specs.Outcome.{entry_of};
ghost use Rattle.newsroom.specs.Stands.{StandsFor, store_of};
ghost use Rattle.newsroom.specs.Acts.{IsSmall, may_follow, follows_at, raises_by};

use crate::newsroom::Newsroom;
use news_types::{Act, Denial, Moment, Name, Ready};
use publish_queue::FeedFacts;

impl Newsroom {
    /// Whether one of the four acts may follow the list at the moment. No other act may.
    pub fn legal(&self, act: &Act, moment: Moment) -> bool
        ensures value { (h : History) → StandsFor self.now h → result ≡ may_follow h act.now moment }
        ensures lawful { (h : History) → StandsFor self.now h → IsTrue result → IsLegal (entry_of moment act.now ∷ h) × IsSmall act.now }
        ensures exact { (h : History) → StandsFor self.now h → IsSmall act.now → IsLegal (entry_of moment act.now ∷ h) → IsTrue result }
    {
        both(self.moment <= moment, self.may_follow(act, moment))
    }

    // The same of a moment that is not before the last.
    fn may_follow(&self, act: &Act, moment: Moment) -> bool
        ensures { (h : History) → StandsFor self.now h → result ≡ follows_at h act.now moment }
    {
        match act {
            Act::Advance => self.stories.waits_until(moment),
            Act::Attempt { subscriber, k } => self.stories.is_next(*subscriber, *k, moment),
            Act::Receipt { subscriber, n } => raises_by(self.stories.feed_facts(subscriber), *n),
            Act::Halt => true,
            _ => false,
        }
    }

    /// Keeps one of the four acts, which may follow the list.
    pub fn apply(&mut self, act: &Act, moment: Moment)
        requires stands { (h : History) × (StandsFor self.old h × (length h < 4294967295)) }
        requires small { IsSmall act.now }
        requires early { moment < 253402300800 }
        ensures stands { (h : History) → StandsFor self.old h → IsLegal (entry_of moment act.now ∷ h) → StandsFor self.new (entry_of moment act.now ∷ h) }
        ensures store { store_of self.new ≡ store_of self.old }
    {
        self.entries += 1;
        self.moment = moment;
        match act {
            Act::Advance => self.stories.advance(moment),
            Act::Attempt { subscriber, .. } => self.stories.attempt(subscriber, moment),
            Act::Receipt { subscriber, n } => self.stories.receipt(subscriber, *n, moment),
            Act::Halt => self.halt(moment),
            Act::Ingest { .. } | Act::Request { .. } => unreachable!(),
        }
    }

    // Remembers the last entry as a stop.
    fn halt(&mut self, moment: Moment)
        ensures store { store_of self.new ≡ store_of self.old }
        ensures stop { self.new.last_stop ≡ self.old.entries }
        ensures entries { self.new.entries ≡ self.old.entries }
        ensures at { self.new.moment ≡ self.old.moment }
        ensures callers { self.new.callers ≡ self.old.callers }
        ensures rules { self.new.rules ≡ self.old.rules }
        ensures dues { self.new.dues ≡ self.old.dues }
        ensures wires { self.new.wires ≡ self.old.wires }
        ensures stories { (h : History) → KeepsStories self.old.stories h → last_moment h ≤ moment → KeepsStories self.new.stories (entry_of moment acts.Halt ∷ h) }
    {
        self.last_stop = self.entries;
        self.stories.advance(moment);
    }

    /// Which of the feeds is pushed next, or when one may be.
    pub fn next_ready(&self, names: &[Name], moment: Moment) -> Ready
        ensures { (h : History) → StandsFor self.now h → result ≡ choice h names.now moment }
    {
        self.stories.next_ready(names, moment)
    }

    /// Whether a receipt raises what is acknowledged, or why it is denied.
    pub fn judge_receipt(&self, subscriber: &Name, n: u32) -> Result<bool, Denial>
        ensures { (h : History) → StandsFor self.now h → MatchResult result (λ raises. (receipt_denial h subscriber.now n ≡ None) × (raises ≡ nat_lt (acked h subscriber.now) n)) (λ denial. receipt_denial h subscriber.now n ≡ Some denial) }
    {
        self.stories.judge_receipt(subscriber, n)
    }
}

fn both(one: bool, other: bool) -> bool
    ensures { result ≡ (one && other) }
{
    one && other
}

/// Whether a receipt raises what is acknowledged of a feed that so stands, and is not past its length.
fn raises_by(facts: Option<FeedFacts>, n: u32) -> bool
    ensures { result ≡ raises_by facts n }
{
    match facts {
        Some(facts) => facts.acked < n && n <= facts.length,
        None => false,
    }
}
