//! Appending to a log: a record is written behind the closed gate and synced before the gate is opened.
ghost use Rattle.std.specs.Prelude.{◌≡◌, ◌⊎◌, ◌≤◌, ◌+◌, ◌^◌, ◌++◌, [], ◌∷◌, List, ℕ, Some, false, length, OnOk, OnErr};
ghost use Rattle.news_io.specs.Disk.{Holds, Torn, Follows, Only, DiskGains};
ghost use Rattle.news_io.specs.Faults.{Counts};
ghost use Rattle.news_io.specs.Keeper.{IsFramed, payload_of, Leaves, BeforeOrAfter};
ghost use Rattle.news_journal.specs.Calls.{CalledWithin, quieting_calls, append_calls};
ghost use Rattle.news_journal.specs.Log.{opened};
ghost use Rattle.news_journal.specs.Stands.{disk_of, head_of, Logs, Doubts, list_of};
ghost use Rattle.news_journal.specs.Journal.{journal_of};

use crate::Journal;
use news_io::{AppendFault, Disk, Failed, Keeper};

/// Writes, and then syncs. After it succeeded, a crash leaves what a read gives.
pub fn write_through<D: Disk>(disk: &mut D, at: u64, from: &[u8]) -> Result<(), Failed>
    ensures written { D.disk.tells disk.old → at ≤ length (D.disk.seen disk.old) → OnOk result (Holds (D.disk.seen disk.old) at from.now (D.disk.seen disk.new)) }
    ensures durable { D.disk.tells disk.old → OnOk result (Only (D.disk.seen disk.new) (D.disk.may_leave disk.new)) }
    ensures torn { Torn at (length from.now) (D.disk.seen disk.old) (D.disk.seen disk.new) }
    ensures told { D.disk.tells disk.old → D.disk.tells disk.new }
    ensures crash { D.disk.tells disk.old → Follows (Torn at (length from.now)) (D.disk.may_leave disk.old) (D.disk.may_leave disk.new) }
    ensures time { D.disk.tells disk.old → DiskGains D.disk disk.old disk.new
        (λ c. (d : List ℕ) × D.disk.may_leave disk.old d × Torn at (length from.now) d c) }
    ensures count { Counts (D.disk.faults disk.old) (D.disk.faults disk.new) result }
    ensures calls { CalledWithin 2 (D.disk.calls disk.old) (D.disk.calls disk.new) }
{
    disk.write_at(at, from)?;
    disk.sync()
}

impl<D: Disk> Journal<D> {
    /// Gives the disk back.
    pub fn into_disk(self) -> D
        ensures { result ≡ disk_of self }
    {
        self.disk
    }

    /// The header's bytes.
    pub fn head(&self) -> &[u8; 64]
        ensures { result.now ≡ head_of self.now }
    {
        &self.head
    }

    /// Closes the gate where an append that failed may have left it open.
    fn quiet(&mut self) -> Result<(), Failed>
        ensures logs { (ps : List (List ℕ)) → Logs D.disk self.old ps → Logs D.disk self.new ps }
        ensures doubts { (ps : List (List ℕ)) → Logs D.disk self.old ps → (x : List ℕ) → Doubts D.disk self.new ps x → Doubts D.disk self.old ps x }
        ensures shut { OnOk result (self.new.ajar ≡ false) }
        ensures gate { self.new.gate ≡ self.old.gate }
        ensures head { self.new.head ≡ self.old.head }
        ensures crash { (ps : List (List ℕ)) → Logs D.disk self.old ps → DiskGains D.disk self.old.disk self.new.disk
            (λ (c : List ℕ). Leaves ps (Doubts D.disk self.old ps) (opened self.old.head c)) }
        ensures count { Counts (D.disk.faults self.old.disk) (D.disk.faults self.new.disk) result }
        ensures calls { CalledWithin (quieting_calls self.old.ajar) (D.disk.calls self.old.disk) (D.disk.calls self.new.disk) }
    {
        if self.ajar {
            write_through(&mut self.disk, self.gate, &[0])?;
            self.ajar = false;
        }
        Ok(())
    }

    /// Writes the record behind the closed gate, and then opens the gate.
    pub fn write_record(&mut self, framed: &[u8]) -> Result<(), Failed>
        requires framed { IsFramed framed.now }
        requires room { self.old.gate + 1 + length framed.now ≤ 2 ^ 30 }
        requires shut { self.old.ajar ≡ false }
        ensures logs { (ps : List (List ℕ)) → Logs D.disk self.old ps → OnOk result (Logs D.disk self.new (ps ++ payload_of framed.now ∷ [])) }
        ensures logs_err { (ps : List (List ℕ)) → Logs D.disk self.old ps → OnErr result (Logs D.disk self.new ps) }
        ensures doubts { (ps : List (List ℕ)) → Logs D.disk self.old ps → OnErr result ((x : List ℕ) → Doubts D.disk self.new ps x → x ≡ payload_of framed.now) }
        ensures durable { D.disk.tells self.old.disk → OnOk result (Only (D.disk.seen self.new.disk) (D.disk.may_leave self.new.disk)) }
        ensures shut { OnOk result (self.new.ajar ≡ false) }
        ensures gate { OnOk result (self.new.gate ≡ self.old.gate + length framed.now) }
        ensures gate_err { OnErr result (self.new.gate ≡ self.old.gate) }
        ensures head { self.new.head ≡ self.old.head }
        ensures crash { (ps : List (List ℕ)) → Logs D.disk self.old ps → OnOk result (DiskGains D.disk self.old.disk self.new.disk
            (λ (c : List ℕ). (opened self.old.head c ≡ Some ps) ⊎ (opened self.old.head c ≡ Some (ps ++ payload_of framed.now ∷ [])))) }
        ensures crash_err { (ps : List (List ℕ)) → Logs D.disk self.old ps → OnErr result (DiskGains D.disk self.old.disk self.new.disk
            (λ (c : List ℕ). Leaves ps (Doubts D.disk self.new ps) (opened self.old.head c))) }
        ensures count { Counts (D.disk.faults self.old.disk) (D.disk.faults self.new.disk) result }
        ensures calls { CalledWithin 4 (D.disk.calls self.old.disk) (D.disk.calls self.new.disk) }
    {
        write_through(&mut self.disk, self.gate + 1, framed)?;
        self.ajar = true;
        write_through(&mut self.disk, self.gate, &[1])?;
        self.ajar = false;
        self.gate += framed.len() as u64;
        Ok(())
    }

    /// Adds a record behind the last one, for which there is room.
    pub fn add(&mut self, framed: &[u8]) -> Result<(), Failed>
        requires framed { IsFramed framed.now }
        requires room { self.old.gate + 1 + length framed.now ≤ 2 ^ 30 }
        ensures told { Logs D.disk self.old (list_of D.disk self.old) → Logs D.disk self.new (list_of D.disk self.new) }
        ensures kept { Logs D.disk self.old (list_of D.disk self.old) → OnOk result (list_of D.disk self.new ≡ list_of D.disk self.old ++ payload_of framed.now ∷ []) }
        ensures same { Logs D.disk self.old (list_of D.disk self.old) → OnErr result (list_of D.disk self.new ≡ list_of D.disk self.old) }
        ensures doubts { Logs D.disk self.old (list_of D.disk self.old) → OnErr result ((x : List ℕ) → Doubts D.disk self.new (list_of D.disk self.new) x
            → Doubts D.disk self.old (list_of D.disk self.old) x ⊎ (x ≡ payload_of framed.now)) }
        ensures shut { OnOk result (self.new.ajar ≡ false) }
        ensures gate { OnOk result (self.new.gate ≡ self.old.gate + length framed.now) }
        ensures gate_err { OnErr result (self.new.gate ≡ self.old.gate) }
        ensures head { self.new.head ≡ self.old.head }
        ensures crash { Logs D.disk self.old (list_of D.disk self.old) → DiskGains D.disk self.old.disk self.new.disk
            (λ (c : List ℕ). BeforeOrAfter (list_of D.disk self.old) (Doubts D.disk self.old (list_of D.disk self.old))
            (list_of D.disk self.new) (Doubts D.disk self.new (list_of D.disk self.new)) (opened self.old.head c)) }
        ensures count { Counts (D.disk.faults self.old.disk) (D.disk.faults self.new.disk) result }
        ensures calls { CalledWithin (append_calls self.old.ajar) (D.disk.calls self.old.disk) (D.disk.calls self.new.disk) }
    {
        self.quiet()?;
        self.write_record(framed)?;
        Ok(())
    }
}

impl<D: Disk> Keeper for Journal<D> {
    ghost keeper = { journal_of D.disk };

    fn size(&self) -> u64 {
        self.gate + 1
    }

    fn append(&mut self, framed: &[u8], limit: u64) -> Result<(), AppendFault> {
        let length = framed.len() as u64;
        if self.gate + 1 + length > limit {
            return Err(AppendFault::Full {
                size: self.gate + 1,
                length: length - 5,
            });
        }
        self.add(framed)?;
        Ok(())
    }
}
