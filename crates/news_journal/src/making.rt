//! Creating a log: its first byte is written last, so that a file in the making is no log.
ghost use Rattle.std.specs.Prelude.{◌≡◌, ◌≤◌, ◌++◌, [], ◌∷◌, List, ℕ, length, OnOk, IfOk, IfErr};
ghost use Rattle.news_io.specs.Disk.{Only, LeavesOnly, DiskGains};
ghost use Rattle.news_io.specs.Faults.{Counts, Rose};
ghost use Rattle.news_journal.specs.Calls.{CalledWithin};
ghost use Rattle.news_journal.specs.Log.{header_bytes};
ghost use Rattle.news_journal.specs.declared.log.OpenFault.TheVariants.{DiskFault};
ghost use Rattle.news_journal.specs.Stands.{disk_of, head_of};
ghost use Rattle.news_journal.specs.Created.{IsInTheMaking};
ghost use Rattle.news_journal.specs.Journal.{journal_of};

use crate::keeping::write_through;
use crate::{Header, Journal, OpenFault};
use news_io::{Disk, Failed, Keeper};

/// Writes a header and a closed gate to an empty file.
fn write_header<D: Disk>(disk: &mut D, header: &Header) -> Result<(), Failed>
    ensures seen { D.disk.tells disk.old → D.disk.seen disk.old ≡ [] → OnOk result (D.disk.seen disk.new ≡ header_bytes header.now ++ 0 ∷ []) }
    ensures durable { D.disk.tells disk.old → OnOk result (Only (D.disk.seen disk.new) (D.disk.may_leave disk.new)) }
    ensures told { D.disk.tells disk.old → D.disk.tells disk.new }
    ensures crash { D.disk.tells disk.old → D.disk.seen disk.old ≡ [] → DiskGains D.disk disk.old disk.new (IsInTheMaking header.now) }
    ensures long { length (header_bytes header.now) ≡ 64 }
    ensures count { Counts (D.disk.faults disk.old) (D.disk.faults disk.new) result }
    ensures calls { CalledWithin 6 (D.disk.calls disk.old) (D.disk.calls disk.new) }
{
    let behind = header.behind_first();
    write_through(disk, 0, &[0])?;
    write_through(disk, 1, &behind)?;
    write_through(disk, 0, b"N")
}

impl<D: Disk> Journal<D> {
    /// Makes a disk a log without a record, whose file has to be empty: nothing is said of one that is not. It makes six device calls.
    ///
    /// A crash before it ended leaves an empty file, a damaged one, or a log without a record, and never another log.
    pub fn create(mut disk: D, header: &Header) -> Result<Journal<D>, (D, OpenFault)>
        ensures head { IfOk result (λ j. head_of j ≡ header_bytes header.now) }
        ensures bytes { D.disk.tells disk → D.disk.seen disk ≡ [] → IfOk result (λ j. D.disk.seen (disk_of j) ≡ header_bytes header.now ++ 0 ∷ []) }
        // The keeper holds no record, and nothing is in doubt.
        ensures tells { D.disk.tells disk → D.disk.seen disk ≡ [] → IfOk result (λ j. (journal_of D.disk).tells j) }
        ensures list { D.disk.tells disk → D.disk.seen disk ≡ [] → IfOk result (λ j. (journal_of D.disk).list j ≡ []) }
        ensures doubts { IfOk result (λ j. (x : List ℕ) → (journal_of D.disk).doubts j x → ⊥) }
        ensures quiet { IfOk result (λ j. (journal_of D.disk).most_calls j ≡ 4) }
        ensures used { IfOk result (λ j. (journal_of D.disk).used j ≡ 65) }
        // At each moment of the call a crash leaves a log in the making.
        ensures crash { D.disk.tells disk → D.disk.seen disk ≡ [] → IfOk result (λ j. LeavesOnly D.disk disk (disk_of j) (IsInTheMaking header.now)) }
        ensures crash_err { D.disk.tells disk → D.disk.seen disk ≡ [] → IfErr result (λ e. LeavesOnly D.disk disk e.0 (IsInTheMaking header.now)) }
        ensures told_err { D.disk.tells disk → IfErr result (λ e. D.disk.tells e.0) }
        ensures calm { IfOk result (λ j. D.disk.faults (disk_of j) ≡ D.disk.faults disk) }
        ensures fault { IfErr result (λ e. (e.1 ≡ DiskFault) × (D.disk.faults disk ≤ D.disk.faults e.0) × Rose (D.disk.faults disk) (D.disk.faults e.0)) }
        ensures calls { IfOk result (λ j. CalledWithin 6 (D.disk.calls disk) (D.disk.calls (disk_of j))) }
        ensures calls_err { IfErr result (λ e. CalledWithin 6 (D.disk.calls disk) (D.disk.calls e.0)) }
    {
        if let Err(_) = write_header(&mut disk, header) {
            return Err((disk, OpenFault::DiskFault));
        }
        Ok(Journal::at_gate(disk, header.bytes(), 64))
    }
}
