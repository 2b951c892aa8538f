//! What changes several feeds.
ghost use Rattle.std.specs.Prelude.{◌≡◌, ◌<◌, false, [], length, slice_index_or, IfSome, OnOk, MatchOption, vec_len};
ghost use Rattle.std.specs.List.{All, HoldsAt};
ghost use Rattle.news_types.specs.Names.{Bytes, is_in};
ghost use Rattle.publish_queue.specs.Order.{Differ};
ghost use Rattle.publish_queue.specs.Rows.{is_between};
ghost use Rattle.publish_queue.specs.Places.{FitsPlace, AllFit};
ghost use Rattle.publish_queue.specs.Steps.{IsWithdrawn, FitsOneMore};
ghost use Rattle.publish_queue.specs.Many.{Sets, Spread, EachGoes, OneGoes, IsRoomy, IsSame, IsAddedTo, IsAdvancedTo, IsDeliveredTo, IsSettled, IsWithdrawnBy, names_in};
ghost use Rattle.publish_queue.specs.Keeps.{AreInTurn, HasPlace, IsWithFeed};

use crate::feed::{Delivery, Feed};
use crate::queue::Feeds;
use crate::release::{Release, Span};
use crate::search::{find, place_of};
use crate::turns::Turns;
use news_types::{Due, Memory, Moment, Name};
use std::alloc::Global;

impl Feeds {
    /// Without a subscriber.
    pub fn new(alloc: Global) -> Feeds
        ensures names { result.names.items ≡ [] }
        ensures feeds { result.feeds.items ≡ [] }
        ensures ordered { AreInTurn result }
    {
        Feeds {
            names: Vec::new(alloc),
            feeds: Vec::new(alloc),
            turns: Turns::new(alloc),
        }
    }

    /// Where the feed of a subscriber is.
    pub fn find(&self, name: &Name) -> Option<usize>
        ensures within { IfSome result (λ at. at < vec_len self.now.feeds) }
        ensures found { MatchOption result (is_in name.now self.now.names.items ≡ false)
            (λ at. (at < length self.now.names.items) × ((d : Bytes) → slice_index_or self.now.names.items at d ≡ name.now)) }
    {
        find(&self.names, name)
    }

    /// Takes the memory for one more subscriber.
    pub fn reserve_subscriber(&mut self) -> Result<(), Memory>
        ensures names { self.new.names.items ≡ self.old.names.items }
        ensures feeds { self.new.feeds.items ≡ self.old.feeds.items }
        ensures ordered { AreInTurn self.old → AreInTurn self.new }
        ensures ok { OnOk result (HasPlace self.new) }
    {
        self.names.reserve(1)?;
        self.feeds.reserve(1)?;
        self.turns.reserve(self.feeds.len() + 1)?;
        Ok(())
    }

    /// Adds a subscriber with an empty feed, unless it is there. It takes no memory.
    pub fn add_subscriber(&mut self, alloc: Global, name: Name)
        requires { HasPlace self.old }
        ensures { is_in name self.old.names.items ≡ false → IsWithFeed name self.old self.new }
    {
        let Some(at) = place_of(&self.names, &name) else {
            return;
        };
        let _ = self.names.insert(at, name);
        let _ = self.feeds.insert(at, Feed::new(alloc, name));
    }

    /// Takes the memory for one more publication that is due to these.
    pub fn reserve_for(&mut self, due: &[Due]) -> Result<(), Memory>
        ensures names { self.new.names.items ≡ self.old.names.items }
        ensures alike { EachGoes IsSame self.old.feeds.items self.new.feeds.items }
        ensures turns { self.new.turns ≡ self.old.turns }
        ensures place { HasPlace self.old → HasPlace self.new }
        ensures ok { OnOk result (All (IsRoomy (names_in due.now)) self.new.feeds.items) }
    {
        for it in due {
            if let Some(at) = self.find(&it.subscriber) {
                self.reserve_at(at)?;
            }
        }
        Ok(())
    }

    // Takes the memory for one more publication in the feed at that place.
    fn reserve_at(&mut self, at: usize) -> Result<(), Memory>
        requires { at < vec_len self.old.feeds }
        ensures names { self.new.names.items ≡ self.old.names.items }
        ensures sets { Sets IsSame at self.old.feeds.items self.new.feeds.items }
        ensures turns { self.new.turns ≡ self.old.turns }
        ensures place { HasPlace self.old → HasPlace self.new }
        ensures ok { OnOk result (HoldsAt FitsOneMore self.new.feeds.items at) }
    {
        self.feeds[at].reserve()
    }

    /// Puts a publication into the feeds of those to whom it is due, or among what waits for them.
    pub fn add(&mut self, number: u32, due: &[Due], moment: Moment)
        requires differ { Differ (names_in due.now) }
        requires roomy { All (IsRoomy (names_in due.now)) self.old.feeds.items }
        requires fits { AllFit number due.now }
        ensures names { self.new.names.items ≡ self.old.names.items }
        ensures spread { Spread (IsAddedTo number moment) due.now self.old.feeds.items self.new.feeds.items }
        ensures ordered { AreInTurn self.old → AreInTurn self.new }
    {
        for it in due {
            if let Some(at) = self.find(&it.subscriber) {
                let release = Release {
                    moment: it.release,
                    number,
                };
                self.add_at(at, release, moment);
            }
        }
    }

    // Puts a publication into the feed at that place, or among what waits for it.
    fn add_at(&mut self, at: usize, release: Release, moment: Moment)
        requires within { at < vec_len self.old.feeds }
        requires room { HoldsAt FitsOneMore self.old.feeds.items at }
        requires fits { FitsPlace release }
        ensures names { self.new.names.items ≡ self.old.names.items }
        ensures sets { Sets (IsAddedTo release.number moment release.moment) at self.old.feeds.items self.new.feeds.items }
        ensures ordered { AreInTurn self.old → AreInTurn self.new }
    {
        self.feeds[at].add(release, moment);
        self.settle_at(at);
    }

    /// Moves what is released to the rows.
    pub fn advance(&mut self, moment: Moment)
        ensures names { self.new.names.items ≡ self.old.names.items }
        ensures each { EachGoes (IsAdvancedTo moment) self.old.feeds.items self.new.feeds.items }
        ensures ordered { AreInTurn self.old → AreInTurn self.new }
    {
        for at in 0..self.feeds.len() {
            self.advance_at(at, moment);
        }
    }

    // Moves what is released to the row at that place.
    fn advance_at(&mut self, at: usize, moment: Moment)
        requires { at < vec_len self.old.feeds }
        ensures names { self.new.names.items ≡ self.old.names.items }
        ensures sets { Sets (IsAdvancedTo moment) at self.old.feeds.items self.new.feeds.items }
        ensures ordered { AreInTurn self.old → AreInTurn self.new }
    {
        if !self.feeds[at].is_due(moment) {
            return;
        }
        self.feeds[at].advance(moment);
        self.settle_at(at);
    }

    /// Says how the delivery of the feed at that place stands.
    pub fn deliver(&mut self, at: usize, delivery: Delivery)
        requires { at < vec_len self.old.feeds }
        ensures names { self.new.names.items ≡ self.old.names.items }
        ensures sets { Sets (IsDeliveredTo delivery) at self.old.feeds.items self.new.feeds.items }
        ensures ordered { AreInTurn self.old → AreInTurn self.new }
    {
        self.feeds[at].deliver(delivery);
        self.settle_at(at);
    }

    // Puts the feed at that place where it belongs among those that may be pushed.
    fn settle_at(&mut self, at: usize)
        requires { at < vec_len self.old.feeds }
        ensures names { self.new.names.items ≡ self.old.names.items }
        ensures sets { Sets IsSettled at self.old.feeds.items self.new.feeds.items }
        ensures ordered { AreInTurn self.old → AreInTurn self.new }
    {
        let feed = &mut self.feeds[at];
        let turn = feed.ready_at();
        self.turns.change(feed.name, feed.turn, turn);
        feed.set_turn(turn);
    }

    /// Withdraws the publications of these numbers that wait for a subscriber, and are released to it within one of these spans.
    pub fn withdraw_all(&mut self, numbers: &[u32], spans: &[Span])
        ensures names { self.new.names.items ≡ self.old.names.items }
        ensures each { EachGoes (IsWithdrawnBy numbers.now spans.now) self.old.feeds.items self.new.feeds.items }
        ensures turns { self.new.turns ≡ self.old.turns }
    {
        for span in spans {
            if let Some(at) = self.find(&span.subscriber) {
                self.withdraw_at(at, numbers, span.first, span.last);
            }
        }
    }

    /// Withdraws the publications of these numbers that wait for one subscriber, and are released to it between two moments.
    pub fn withdraw_one(&mut self, name: &Name, numbers: &[u32], first: Moment, last: Moment)
        ensures names { self.new.names.items ≡ self.old.names.items }
        ensures goes { OneGoes (IsWithdrawn (is_between numbers.now first last)) name.now self.old.feeds.items self.new.feeds.items }
        ensures turns { self.new.turns ≡ self.old.turns }
    {
        if let Some(at) = self.find(name) {
            self.withdraw_at(at, numbers, first, last);
        }
    }

    // Withdraws the publications of these numbers that wait for the one at that place, and are released to it between two moments.
    fn withdraw_at(&mut self, at: usize, numbers: &[u32], first: Moment, last: Moment)
        requires { at < vec_len self.old.feeds }
        ensures names { self.new.names.items ≡ self.old.names.items }
        ensures sets { Sets (IsWithdrawn (is_between numbers.now first last)) at self.old.feeds.items self.new.feeds.items }
        ensures turns { self.new.turns ≡ self.old.turns }
    {
        self.feeds[at].withdraw(numbers, first, last);
    }
}
