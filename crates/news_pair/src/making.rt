//! Making a pair: the log is made, and the side is left empty.
ghost use Rattle.std.specs.Prelude.{◌≡◌, ◌≤◌, [], List, ℕ, IfOk, IfErr};
ghost use Rattle.news_io.specs.Disk.{LeavesOnly};
ghost use Rattle.news_io.specs.Faults.{Rose};
ghost use Rattle.news_journal.specs.Calls.{CalledWithin};
ghost use Rattle.news_journal.specs.Created.{IsInTheMaking, IsRoom};
ghost use Rattle.news_pair.specs.Stands.{log_disk, side_disk};
ghost use Rattle.news_pair.specs.Keeper.{pair_of};
ghost use Rattle.news_pair.specs.declared.fault.PairFault.TheVariants.{DiskFault};

use crate::{Pair, PairFault};
use news_io::{Disk, Keeper};
use news_journal::{Header, Journal};

impl<D: Disk> Pair<D> {
    /// Makes two disks the pair of this room, without an entry. Their files have to be empty: nothing is said of others. It makes six device calls.
    ///
    /// A failure is the disk's. A crash before the call ended leaves a log that is empty or damaged, or a pair without an entry, and never another list.
    pub fn create(log: D, side: D, header: &Header) -> Result<Pair<D>, (D, D, PairFault)>
        requires room { IsRoom header.now }
        // The keeper holds no record, and nothing is in doubt.
        ensures tells { D.disk.tells log → D.disk.tells side → D.disk.seen log ≡ [] → D.disk.seen side ≡ [] → IfOk result (λ p. (pair_of D.disk).tells p) }
        ensures list { D.disk.tells log → D.disk.tells side → D.disk.seen log ≡ [] → D.disk.seen side ≡ [] → IfOk result (λ p. (pair_of D.disk).list p ≡ []) }
        ensures doubts { IfOk result (λ p. (x : List ℕ) → (pair_of D.disk).doubts p x → ⊥) }
        ensures quiet { IfOk result (λ p. (pair_of D.disk).most_calls p ≡ 4) }
        ensures used { IfOk result (λ p. (pair_of D.disk).used p ≡ 65) }
        // At each moment of the call a crash leaves a log in the making; the side is left alone.
        ensures crash { D.disk.tells log → D.disk.seen log ≡ [] → IfOk result (λ p. LeavesOnly D.disk log (log_disk p) (IsInTheMaking header.now)) }
        ensures crash_err { D.disk.tells log → D.disk.seen log ≡ [] → IfErr result (λ e. LeavesOnly D.disk log e.0 (IsInTheMaking header.now)) }
        ensures told_err { D.disk.tells log → IfErr result (λ e. D.disk.tells e.0) }
        ensures side { IfOk result (λ p. side_disk p ≡ side) }
        ensures side_err { IfErr result (λ e. e.1 ≡ side) }
        ensures calm { IfOk result (λ p. D.disk.faults (log_disk p) ≡ D.disk.faults log) }
        ensures fault { IfErr result (λ e. (e.2 ≡ DiskFault) × (D.disk.faults log ≤ D.disk.faults e.0) × Rose (D.disk.faults log) (D.disk.faults e.0)) }
        ensures calls { IfOk result (λ p. CalledWithin 6 (D.disk.calls log) (D.disk.calls (log_disk p))) }
        ensures calls_err { IfErr result (λ e. CalledWithin 6 (D.disk.calls log) (D.disk.calls e.0)) }
    {
        let Header::Room { store } = header else {
            unreachable!();
        };
        match Journal::create(log, header) {
            Ok(journal) => Ok(Pair {
                log: journal,
                side,
                store: *store,
                base: 0,
                packed: 0,
                end: 0,
                used: 65,
            }),
            Err((log, _)) => Err((log, side, PairFault::DiskFault)),
        }
    }
}
