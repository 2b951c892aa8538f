//! Bytes that come in.
ghost use Rattle.std.specs.Prelude.{◌≡◌, ◌≤◌, ◌<◌, ◌++◌, [], length, take, IfOk, OnErr};
ghost use Rattle.news_io.specs.Faults.{Counts};
ghost use Rattle.news_io.specs.Source.{SourceMeaning};

use crate::Failed;

/// Where bytes come from.
pub trait Source {
    /// What the source means.
    ghost source: { SourceMeaning Self };

    /// Takes some of the bytes ahead: none only at their end, or for an empty piece. A failure takes none.
    fn read(&mut self, into: &mut [u8]) -> Result<usize, Failed>
        ensures within { IfOk result (λ n. n ≤ length into.old) }
        ensures bytes { source.tells self.old → IfOk result (λ n. source.ahead self.old ≡ take n into.new ++ source.ahead self.new) }
        ensures end { source.tells self.old → 0 < length into.old → IfOk result (λ n. n ≡ 0 → source.ahead self.old ≡ []) }
        ensures err { source.tells self.old → OnErr result (source.ahead self.new ≡ source.ahead self.old) }
        ensures told { source.tells self.old → source.tells self.new }
        ensures count { Counts (source.faults self.old) (source.faults self.new) result };
}
