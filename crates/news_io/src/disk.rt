//! A file on a disk: what a read gives, and what a crash may leave.
ghost use Rattle.std.specs.Prelude.{◌≡◌, ◌≤◌, ◌<◌, ◌++◌, List, ℕ, length, take, drop, IfOk, OnOk};
ghost use Rattle.news_io.specs.Calls.{Called};
ghost use Rattle.news_io.specs.Disk.{Holds, Torn, Follows, Only, DiskMeaning, DiskGains};
ghost use Rattle.news_io.specs.Faults.{Counts};

use crate::Failed;

/// A file. Between two syncs a crash may leave any bytes in each range that was written, and past the end that it had; all other bytes stay.
pub trait Disk {
    /// What the disk means.
    ghost disk: { DiskMeaning Self };

    /// How many bytes the file has.
    fn size(&mut self) -> Result<u64, Failed>
        ensures size { disk.tells self.old → IfOk result (λ n. n ≡ length (disk.seen self.old)) }
        ensures told { disk.tells self.old → disk.tells self.new }
        ensures seen { disk.seen self.new ≡ disk.seen self.old }
        ensures crash { (c : List ℕ) → disk.may_leave self.new c → disk.may_leave self.old c }
        ensures time { DiskGains disk self.old self.new (disk.may_leave self.new) }
        ensures count { Counts (disk.faults self.old) (disk.faults self.new) result }
        ensures calls { Called (disk.calls self.old) (disk.calls self.new) };

    /// Some of the bytes from a place on: none only where the piece is empty or the place is at the end or behind it.
    fn read(&mut self, at: u64, into: &mut [u8]) -> Result<usize, Failed>
        ensures within { IfOk result (λ n. n ≤ length into.old) }
        ensures bytes { disk.tells self.old → IfOk result (λ n. (n ≤ length (drop at (disk.seen self.old)))
            × (into.new ≡ take n (drop at (disk.seen self.old)) ++ drop n into.old)) }
        ensures some { disk.tells self.old → 0 < length into.old → at < length (disk.seen self.old) → IfOk result (λ n. 0 < n) }
        ensures told { disk.tells self.old → disk.tells self.new }
        ensures seen { disk.seen self.new ≡ disk.seen self.old }
        ensures crash { (c : List ℕ) → disk.may_leave self.new c → disk.may_leave self.old c }
        ensures time { DiskGains disk self.old self.new (disk.may_leave self.new) }
        ensures count { Counts (disk.faults self.old) (disk.faults self.new) result }
        ensures calls { Called (disk.calls self.old) (disk.calls self.new) };

    /// Writes over what is there, and past the end. After a failure, and after a crash before the next sync, the range may hold any bytes.
    fn write_at(&mut self, at: u64, from: &[u8]) -> Result<(), Failed>
        ensures written { disk.tells self.old → at ≤ length (disk.seen self.old) → OnOk result (Holds (disk.seen self.old) at from.now (disk.seen self.new)) }
        ensures torn { Torn at (length from.now) (disk.seen self.old) (disk.seen self.new) }
        ensures told { disk.tells self.old → disk.tells self.new }
        ensures crash { Follows (Torn at (length from.now)) (disk.may_leave self.old) (disk.may_leave self.new) }
        ensures time { DiskGains disk self.old self.new (disk.may_leave self.new) }
        ensures count { Counts (disk.faults self.old) (disk.faults self.new) result }
        ensures calls { Called (disk.calls self.old) (disk.calls self.new) };

    /// Makes all that was written last. After it succeeded a crash leaves what a read gives.
    fn sync(&mut self) -> Result<(), Failed>
        ensures durable { disk.tells self.old → OnOk result (Only (disk.seen self.old) (disk.may_leave self.new)) }
        ensures told { disk.tells self.old → disk.tells self.new }
        ensures seen { disk.seen self.new ≡ disk.seen self.old }
        ensures crash { disk.tells self.old → (c : List ℕ) → disk.may_leave self.new c → disk.may_leave self.old c }
        ensures time { DiskGains disk self.old self.new (disk.may_leave self.new) }
        ensures count { Counts (disk.faults self.old) (disk.faults self.new) result }
        ensures calls { Called (disk.calls self.old) (disk.calls self.new) };
}
