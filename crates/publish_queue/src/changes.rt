//! What changes one feed.
ghost use Rattle.std.specs.Prelude.{◌≡◌, OnOk};
ghost use Rattle.std.specs.Bool.{MatchBool};
ghost use Rattle.publish_queue.specs.Rows.{live, is_between, FirstIsLater};
ghost use Rattle.publish_queue.specs.Places.{FitsPlace};
ghost use Rattle.publish_queue.specs.Ready.{row_turn, next_by, later_by};
ghost use Rattle.publish_queue.specs.Steps.{IsEmptyFeed, IsAlike, IsAdvanced, IsAdded, IsWithdrawn, IsDelivered, FitsOneMore};

use crate::feed::{Delivery, Feed};
use crate::release::Release;
use crate::row::Row;
use crate::waiting::WaitingList;
use news_types::{Memory, Moment, Name};
use release_rules::retry_delay;
use std::alloc::Global;

impl Feed {
    /// With nothing in it.
    pub fn new(alloc: Global, name: Name) -> Feed
        ensures { IsEmptyFeed name result }
    {
        Feed {
            name,
            row: Row::new(alloc),
            waiting: WaitingList::new(alloc),
            delivery: Delivery {
                acked: 0,
                tries: 0,
                tried: 0,
            },
            turn: None,
        }
    }

    /// Takes the memory for one more. A row as long as its entries can be numbered takes no more.
    pub fn reserve(&mut self) -> Result<(), Memory>
        ensures alike { IsAlike self.old self.new }
        ensures turn { self.new.turn ≡ self.old.turn }
        ensures ok { OnOk result (FitsOneMore self.new) }
    {
        let waits = self.waiting.len();
        if self.row.len() + waits >= u32::MAX as usize {
            return Err(Memory);
        }
        self.row.reserve(waits + 1)?;
        self.waiting.reserve()?;
        Ok(())
    }

    /// Moves those whose release has come to the row.
    pub fn advance(&mut self, moment: Moment)
        ensures advanced { IsAdvanced moment self.old self.new }
        ensures turn { self.new.turn ≡ self.old.turn }
    {
        while let Some(release) = self.waiting.take_due(moment) {
            self.row.push(release);
        }
    }

    /// Puts a publication into the row where its release has come, and else among those that wait.
    pub fn add(&mut self, release: Release, moment: Moment)
        requires room { FitsOneMore self.old }
        requires fits { FitsPlace release }
        ensures name { self.new.name ≡ self.old.name }
        ensures added { IsAdded release moment self.old self.new }
        ensures turn { self.new.turn ≡ self.old.turn }
    {
        if release.moment <= moment {
            self.row.push(release);
            return;
        }
        self.waiting.add(release);
    }

    /// Withdraws those of these numbers that wait, and are released between two moments.
    pub fn withdraw(&mut self, numbers: &[u32], first: Moment, last: Moment)
        ensures { IsWithdrawn (is_between numbers.now first last) self.old self.new }
    {
        self.waiting.remove(numbers, first, last);
    }

    /// Says how its delivery stands.
    pub fn deliver(&mut self, delivery: Delivery)
        ensures delivered { IsDelivered delivery self.old self.new }
        ensures turn { self.new.turn ≡ self.old.turn }
    {
        self.delivery = delivery;
    }

    /// Says under which moment it stands among the feeds that may be pushed.
    pub fn set_turn(&mut self, turn: Option<Moment>)
        ensures alike { IsAlike self.old self.new }
        ensures turn { self.new.turn ≡ turn }
        ensures fits { FitsOneMore self.old → FitsOneMore self.new }
    {
        self.turn = turn;
    }

    /// Whether something is released at the moment.
    pub fn is_due(&self, moment: Moment) -> bool
        ensures { MatchBool result (Unit {0}) (FirstIsLater moment (live self.now.waiting.releases.items)) }
    {
        match self.waiting.first() {
            Some(first) => first.moment <= moment,
            None => false,
        }
    }

    /// The entry that it goes on with, counted from 1. Nothing where all is acknowledged.
    pub fn next_entry(&self) -> Option<u32>
        ensures { result ≡ next_by self.now }
    {
        if self.row.len() > self.delivery.acked as usize {
            Some(self.delivery.acked + 1)
        } else {
            None
        }
    }

    /// When it may be ready: at its turn, or else at the next release that waits for it. Nothing
    /// where it is paused.
    pub fn later_moment(&self) -> Option<Moment>
        ensures { result ≡ later_by self.now }
    {
        if self.row.len() > self.delivery.acked as usize && self.delivery.tries == MOST_TRIES {
            return None;
        }
        match self.turn {
            Some(moment) => Some(moment),
            None => self.waiting.next(),
        }
    }

    /// When it may be pushed: at the release of the first entry that is not acknowledged, or a
    /// delay after the last attempt. Nothing where all is acknowledged, or the feed is paused.
    pub fn ready_at(&self) -> Option<Moment>
        ensures { result ≡ row_turn self.now }
    {
        let release = self.row.release_at(self.delivery.acked as usize)?;
        if self.delivery.tries == 0 {
            return Some(release);
        }
        if self.delivery.tries >= MOST_TRIES {
            return None;
        }
        Some(self.delivery.tried + retry_delay(self.delivery.tries))
    }
}

/// A feed is paused behind so many attempts.
pub const MOST_TRIES: u32 = 10;
