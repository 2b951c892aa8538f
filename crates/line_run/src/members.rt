// What cuts members off an input, and answers them.
ghost use Rattle.std.specs.Prelude.{◌≡◌, ◌<◌, ◌+◌, ◌^◌, ◌++◌, [], ℕ, List, length, OnOk};
ghost use Rattle.line_run.specs.Life.{Meaning, Life};
ghost use Rattle.line_run.specs.Members.{Adds, AddsLast, ComeFirst};
ghost use Rattle.line_run.specs.Turns.{Did, Causes};

use crate::Ending;
use news_io::Sink;

/// What cuts members off an input that comes in pieces, answers them in order, and keeps what they add to its list.
pub trait Members {
    /// A member of the input.
    ghost Member: { Type 0 };

    /// What it keeps.
    ghost Entry: { Type 0 };

    /// What a crash may leave of it.
    ghost Left: { Type 0 };

    /// What is fixed while it answers, as the store, where its keeper began, and the longest member.
    ghost Shelf: { Type 0 };

    /// How often its keeper has failed.
    ghost faults: { Self → ℕ };

    /// How it stands for a list, and what a crash may leave.
    ghost life: { Shelf → Life Entry Left Self };

    /// What a member is answered at a list, and what it adds.
    ghost meaning: { Shelf → Meaning Entry Member };

    /// The members that the first bytes of an input decide.
    ghost decided: { Shelf → List ℕ → List Member };

    /// The members of a whole input.
    ghost all: { Shelf → List ℕ → List Member };

    /// It has taken these bytes, and answered what they decide.
    ghost has_read: { Self → List ℕ → Type 0 };

    /// Answers the members that this piece decides.
    fn answer_piece<O: Sink>(&mut self, piece: &[u8], output: &mut O) -> Result<(), Ending>
        requires stands { (shelf : Shelf) × ((h : List Entry) × (life shelf).stands self.old h) }
        requires begun { (read : List ℕ) × has_read self.old read × (length read + length piece.now < 2 ^ 63) }
        ensures taken { (read : List ℕ) → has_read self.old read → OnOk result (has_read self.new (read ++ piece.now)) }
        // Whatever follows, the members that are decided come first.
        ensures first { (shelf : Shelf) → ComeFirst (decided shelf) (all shelf) }
        ensures did { (shelf : Shelf) → Adds (decided shelf) (has_read self.old) piece.now (λ members. (h : List Entry) → (life shelf).stands self.old h → Did (meaning shelf) (life shelf) O.sink self.old self.new output.old output.new h members result) }
        ensures causes { Causes (faults self.old) (faults self.new) (O.sink.faults output.old) (O.sink.faults output.new) result };

    /// Answers the members that the end of the input decides.
    fn answer_end<O: Sink>(&mut self, output: &mut O) -> Result<(), Ending>
        requires stands { (shelf : Shelf) × ((h : List Entry) × (life shelf).stands self.old h) }
        requires begun { (read : List ℕ) × has_read self.old read × (length read < 2 ^ 63) }
        ensures did { (shelf : Shelf) → AddsLast (decided shelf) (all shelf) (has_read self.old) (λ members. (h : List Entry) → (life shelf).stands self.old h → Did (meaning shelf) (life shelf) O.sink self.old self.new output.old output.new h members result) }
        ensures causes { Causes (faults self.old) (faults self.new) (O.sink.faults output.old) (O.sink.faults output.new) result };

    /// Of no bytes nothing is decided.
    ghost none: { (shelf : Shelf) → decided shelf [] ≡ [] };
}
