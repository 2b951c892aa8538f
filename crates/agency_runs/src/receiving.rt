// What answers what was cut out of a wire, and keeps what it adds to its list.
ghost use Rattle.std.specs.Prelude.{ℕ, List};
ghost use Rattle.agency_wires.specs.declared.found.Found.{Found};
ghost use Rattle.line_run.specs.Life.{Meaning, Life};
ghost use Rattle.line_run.specs.Step.{IsStep, StepCounts};
ghost use Rattle.agency_runs.specs.Places.{IsPlaced};

use agency_wires::Found;
use line_run::Stopped;

/// What takes in what was cut out of a wire, each message by one reading of its clock, and keeps what that adds to its
/// list.
pub trait Receiving {
    /// What it keeps.
    ghost Entry: { Type 0 };

    /// What a crash may leave of it.
    ghost Left: { Type 0 };

    /// What is fixed while it answers, as the store, the provider and where its keeper began.
    ghost Shelf: { Type 0 };

    /// How often its keeper has failed.
    ghost faults: { Self → ℕ };

    /// How it stands for a list, and what a crash may leave.
    ghost life: { Shelf → Life Entry Left Self };

    /// What a message, or one that is too long, is answered at a list, and what it adds.
    ghost meaning: { Shelf → Meaning Entry Found };

    /// Answers a message, which lies within an input of fewer than 2^63 bytes, or one that is too long.
    fn receive(&mut self, found: Found) -> Result<Vec<u8>, Stopped>
        requires stands { (shelf : Shelf) × ((h : List Entry) × (life shelf).stands self.old h) }
        requires placed { IsPlaced found }
        ensures step { (shelf : Shelf) (h : List Entry) → (life shelf).stands self.old h → IsStep (meaning shelf) (life shelf) self.old self.new h found result }
        ensures count { StepCounts (faults self.old) (faults self.new) result };
}
