// What answers stories, and keeps what they add to its list.
ghost use Rattle.std.specs.Prelude.{ℕ, List};
ghost use Rattle.news_types.specs.Fits.{FitsIncoming};
ghost use Rattle.news_types.specs.declared.story.Incoming.{Incoming};
ghost use Rattle.line_run.specs.Life.{Meaning, Life};
ghost use Rattle.line_run.specs.Step.{IsStep, StepCounts};

use line_run::Stopped;
use news_types::Incoming;

/// What answers stories as they come in, and keeps what they add to its list.
pub trait Ingesting {
    /// What it keeps.
    ghost Entry: { Type 0 };

    /// What a crash may leave of it.
    ghost Found: { Type 0 };

    /// What is fixed while it answers, as the store, the provider and where its keeper began.
    ghost Shelf: { Type 0 };

    /// How often its keeper has failed.
    ghost faults: { Self → ℕ };

    /// How it stands for a list, and what a crash may leave.
    ghost life: { Shelf → Life Entry Found Self };

    /// What a story is answered at a list, and what it adds.
    ghost meaning: { Shelf → Meaning Entry Incoming };

    /// Answers a story, which lies within the limits.
    fn ingest(&mut self, incoming: Incoming) -> Result<Vec<u8>, Stopped>
        requires stands { (shelf : Shelf) × ((h : List Entry) × (life shelf).stands self.old h) }
        requires fits { FitsIncoming incoming }
        ensures step { (shelf : Shelf) (h : List Entry) → (life shelf).stands self.old h → IsStep (meaning shelf) (life shelf) self.old self.new h incoming result }
        ensures count { StepCounts (faults self.old) (faults self.new) result };
}
