//! The order in which feeds may be pushed.
ghost use Rattle.std.specs.Prelude.{◌≡◌, ℕ, ◌+◌, ◌<◌, ◌≤◌, false, [], if◌then◌else◌, vec_len, vec_capacity, OnOk, Option};
ghost use Rattle.std.specs.List.Sorted.{IsStrictlySortedBy};
ghost use Rattle.news_types.specs.Names.{Bytes, same};
ghost use Rattle.publish_queue.specs.Turns.{by_turn, has, one, HoldsTurns, IsWith, IsWithout};

use news_types::{Moment, Name};
use std::alloc::{AllocError, Global};

/// When the feed of a subscriber may be pushed.
#[derive(Clone, Copy, PartialEq, Eq, PartialOrd, Ord)]
pub struct Turn {
    pub moment: Moment,
    pub name: Name,
}

/// The feeds that may be pushed at some moment, the earliest first; of those at one moment the
/// lesser name comes first.
#[derive(Drop)]
pub struct Turns {
    pub turns: Vec<Turn>,
}

impl Turns {
    /// Nothing may be pushed.
    pub fn new(alloc: Global) -> Turns
        ensures { result.turns.items ≡ [] }
    {
        Turns {
            turns: Vec::new(alloc),
        }
    }

    /// Takes the memory for so many in all.
    pub fn reserve(&mut self, count: usize) -> Result<(), AllocError>
        ensures turns { self.new.turns.items ≡ self.old.turns.items }
        ensures capacity { vec_capacity self.old.turns ≤ vec_capacity self.new.turns }
        ensures ok { OnOk result (count ≤ vec_capacity self.new.turns) }
    {
        let missing = count.saturating_sub(self.turns.len());
        self.turns.reserve(missing)
    }

    /// A feed that could be pushed from one moment on may be from another one.
    pub fn change(&mut self, name: Name, before: Option<Moment>, after: Option<Moment>)
        ensures holds { (turn_of : Bytes → Option ℕ) → HoldsTurns self.old turn_of → turn_of name ≡ before → vec_len self.old.turns < vec_capacity self.old.turns + one before →
            HoldsTurns self.new (λ s. if same name s then after else turn_of s) }
        ensures len { (turn_of : Bytes → Option ℕ) → HoldsTurns self.old turn_of → turn_of name ≡ before → vec_len self.old.turns < vec_capacity self.old.turns + one before →
            vec_len self.new.turns + one before ≡ vec_len self.old.turns + one after }
        ensures capacity { vec_capacity self.old.turns ≤ vec_capacity self.new.turns }
    {
        if before == after {
            return;
        }
        if let Some(moment) = before {
            self.remove(Turn { moment, name });
        }
        if let Some(moment) = after {
            self.add(Turn { moment, name });
        }
    }

    // Takes a turn out.
    fn remove(&mut self, turn: Turn)
        ensures turns { IsStrictlySortedBy by_turn self.old.turns.items → IsWithout turn self.old.turns.items self.new.turns.items }
        ensures capacity { vec_capacity self.new.turns ≡ vec_capacity self.old.turns }
    {
        if let Ok(at) = self.turns.binary_search(&turn) {
            self.turns.remove(at);
        }
    }

    // Puts a turn in.
    fn add(&mut self, turn: Turn)
        ensures turns { IsStrictlySortedBy by_turn self.old.turns.items → has turn self.old.turns.items ≡ false → vec_len self.old.turns < vec_capacity self.old.turns →
            IsWith turn self.old.turns.items self.new.turns.items }
        ensures capacity { vec_capacity self.old.turns ≤ vec_capacity self.new.turns }
    {
        if let Err(at) = self.turns.binary_search(&turn) {
            let _ = self.turns.insert(at, turn);
        }
    }
}
