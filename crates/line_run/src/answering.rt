// What answers lines, and keeps what they add to its list.
ghost use Rattle.std.specs.Prelude.{◌≡◌, ℕ, List, Option, option_map};
ghost use Rattle.input_lines.specs.Lines.{Line};
ghost use Rattle.line_run.specs.Life.{Meaning, Life};
ghost use Rattle.line_run.specs.Step.{IsStep, StepCounts};

/// Why there is no answer.
#[derive(Clone, Copy, Debug, PartialEq, Eq)]
pub enum Stopped {
    /// There was no memory for it.
    Memory,
    /// The keeper failed, and its count of faults has risen.
    Fault,
    /// What would be kept next passes the limit.
    Full,
}

/// What answers lines, and keeps what they add to its list.
pub trait Answering {
    /// What it keeps.
    ghost Entry: { Type 0 };

    /// What a crash may leave of it.
    ghost Found: { Type 0 };

    /// What is fixed while it answers, as the store and where its keeper began.
    ghost Shelf: { Type 0 };

    /// How often its keeper has failed.
    ghost faults: { Self → ℕ };

    /// How it stands for a list, and what a crash may leave.
    ghost life: { Shelf → Life Entry Found Self };

    /// What a line is answered at a list, and what it adds.
    ghost meaning: { Shelf → Meaning Entry Line };

    /// Answers a line; a line that is too long comes as nothing.
    fn answer(&mut self, line: Option<&[u8]>) -> Result<Vec<u8>, Stopped>
        requires { (shelf : Shelf) × ((h : List Entry) × (life shelf).stands self.old h) }
        ensures step { (shelf : Shelf) (h : List Entry) → (life shelf).stands self.old h → IsStep (meaning shelf) (life shelf) self.old self.new h (option_map (λ l. l.now) line.entry) result }
        ensures count { StepCounts (faults self.old) (faults self.new) result };
}
