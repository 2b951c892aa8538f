//! Reading a wire in pieces.

ghost use Rattle.std.specs.Prelude.{◌≡◌, ◌+◌, ◌<◌, ◌^◌, ℕ, List, [], ◌∷◌, ◌++◌, true, false, OnOk, OnErr, IfOk, IfSome, IfNone, length};
ghost use Rattle.agency_wires.specs.Gives.{gives, IsUndecided};
ghost use Rattle.agency_wires.specs.Messages.{messages};

use crate::found::Found;
use crate::state::State;
use news_types::Memory;
use std::alloc::Global;
use std::collections::VecDeque;
use std::marker::Model;

/// Reads a wire in pieces, however it is cut.
#[derive(Drop)]
pub struct Reader {
    alloc: Global,
    state: State,
    ended: bool,
}

impl Model for Reader {
    ghost use Rattle.agency_wires.specs.Gives.{Pending};

    ghost Value = { Pending };

    ghost use Rattle.agency_wires.specs.Held.{pending};
    ghost use Rattle.agency_wires.specs.Held.{IsReading};

    ghost view = { pending };

    ghost invariant = { IsReading };
}

impl Reader {
    /// A reader of a wire that begins.
    pub fn new(alloc: Global) -> Result<Reader, Memory>
        ensures begins { IfOk result (λ reader. (reader.at ≡ 0) × (reader.ended ≡ false)) }
        ensures wire { IfOk result (λ reader. (more : List ℕ) → gives reader more ≡ messages more) }
    {
        Ok(Reader {
            alloc,
            state: State {
                ready: VecDeque::new(alloc),
                at: 0,
                phase: None,
                held: Vec::new(alloc),
            },
            ended: false,
        })
    }

    /// Takes the next piece. After want of memory the reader is as it was.
    pub fn feed(&mut self, piece: &[u8]) -> Result<(), Memory>
        requires open { self.old.ended ≡ false }
        requires fits { self.old.at + length piece.now < 2 ^ 64 }
        ensures at { OnOk result (self.new.at ≡ self.old.at + length piece.now) }
        ensures open { self.new.ended ≡ false }
        // Whatever follows, it gives what it would have given together with the piece.
        ensures members { OnOk result ((more : List ℕ) → gives self.new more ≡ gives self.old (piece.now ++ more)) }
        ensures err { OnErr result (self.new ≡ self.old) }
    {
        self.state.take_in(self.alloc, piece)
    }

    /// The input ends. After want of memory the reader is as it was.
    pub fn finish(&mut self) -> Result<(), Memory>
        ensures at { self.new.at ≡ self.old.at }
        ensures ended { OnOk result (self.new.ended ≡ true) }
        ensures members { OnOk result (self.new.ready ≡ gives self.old []) }
        ensures err { OnErr result (self.new ≡ self.old) }
    {
        if self.ended {
            return Ok(());
        }
        self.state.end(self.alloc)?;
        self.ended = true;
        Ok(())
    }

    /// The next member: none exactly where the bytes so far decide no further one.
    pub fn next(&mut self) -> Option<Found>
        ensures found { IfSome result (λ found. self.old ≡ record self.new { ready = found ∷ self.new.ready }) }
        ensures none { IfNone result (self.old.ready ≡ []) }
        ensures undecided { IfNone result (IsUndecided self.old) }
        ensures same { IfNone result (self.new ≡ self.old) }
    {
        self.state.ready.pop_front()
    }
}
