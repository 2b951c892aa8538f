//! Filling the side of a pair with the entries that only its log has.
ghost use Rattle.std.specs.Prelude.{◌≡◌, ◌≤◌, ◌<◌, ◌+◌, ◌^◌, List, ℕ, None, false, length, drop, map, All, IfOk, IfErr};
ghost use Rattle.news_types.specs.Names.{Bytes};
ghost use Rattle.entry_codec.specs.Spelling.{entry_bytes};
ghost use Rattle.entry_segments.specs.Segment.{InTime};
ghost use Rattle.entry_segments.specs.Packing.{IsLongest};
ghost use Rattle.entry_segments.specs.Spelled.{entries_in, IsPayload};
ghost use Rattle.news_pair.specs.Stands.{log_disk, side_disk, Pairs};
ghost use Rattle.news_pair.specs.Steps.{Stays};
ghost use Rattle.news_pair.specs.Filling.{record_size, Fills, FullAs, first_gate};
ghost use Rattle.news_pair.specs.PackFaults.{FaultCounts, IsDamage};
ghost use Rattle.news_pair.specs.declared.pack_fault.PackFault.TheVariants.{DiskFault};

use crate::next_segment::{behind, next_segment};
use crate::{PackFault, Pair};
use news_io::Disk;
use news_types::Bytes;
use std::alloc::Global;

/// The most bytes of a side that are in use.
const MOST: u64 = 1 << 30;

impl<D: Disk> Pair<D> {
    /// Makes the side where it stands for no segment.
    pub(crate) fn sided(self) -> Result<Pair<D>, (D, D, PackFault)>
        ensures pairs { (h : List Bytes) → Pairs D.disk self h → IfOk result (λ p. Pairs D.disk p h) }
        // At each moment of the call the pair opens to the same list.
        ensures crash { (h : List Bytes) → Pairs D.disk self h → self.log.ajar ≡ false → IfOk result (λ p. Stays D.disk self.store h (log_disk self) (side_disk self) (log_disk p) (side_disk p)) }
        ensures crash_err { (h : List Bytes) → Pairs D.disk self h → self.log.ajar ≡ false → IfErr result (λ e. Stays D.disk self.store h (log_disk self) (side_disk self) e.0 e.1) }
        ensures log { IfOk result (λ p. p.log ≡ self.log) }
        ensures store { IfOk result (λ p. p.store ≡ self.store) }
        ensures end { IfOk result (λ p. p.end ≡ first_gate self.end) }
        ensures base { IfOk result (λ p. p.base ≡ self.base) }
        ensures packed { IfOk result (λ p. p.packed ≡ self.packed) }
        ensures used { IfOk result (λ p. p.used ≡ self.used) }
        ensures calm { IfOk result (λ p. D.disk.faults (log_disk p) + D.disk.faults (side_disk p) ≡ D.disk.faults (log_disk self) + D.disk.faults (side_disk self)) }
        ensures fault { IfErr result (λ e. FaultCounts (D.disk.faults (log_disk self) + D.disk.faults (side_disk self)) (D.disk.faults e.0 + D.disk.faults e.1) e.2) }
        ensures disk_fault { IfErr result (λ e. e.2 ≡ DiskFault) }
    {
        if self.end != 0 {
            return Ok(self);
        }
        match self.with_side() {
            Ok(pair) => Ok(pair),
            Err((log, side)) => Err((log, side, PackFault::DiskFault)),
        }
    }

    /// Adds the segment of the next entries of the list to the side; the answer is how many they are.
    fn with_next(
        self,
        alloc: Global,
        payloads: &[Bytes],
    ) -> Result<(Pair<D>, usize), (D, D, PackFault)>
        requires some { 0 < length payloads.now }
        requires each { All IsPayload payloads.now }
        requires in_time { InTime 0 (entries_in payloads.now) }
        requires few { length payloads.now < 2 ^ 30 }
        ensures pairs { (h : List Bytes) → Pairs D.disk self h → 0 < self.end → map entry_bytes (entries_in payloads.now) ≡ drop self.packed h → IfOk result (λ r. Pairs D.disk r.0 h) }
        // At each moment of the call the pair opens to the same list.
        ensures crash { (h : List Bytes) → Pairs D.disk self h → self.log.ajar ≡ false → 0 < self.end → map entry_bytes (entries_in payloads.now) ≡ drop self.packed h
            → IfOk result (λ r. Stays D.disk self.store h (log_disk self) (side_disk self) (log_disk r.0) (side_disk r.0)) }
        ensures crash_err { (h : List Bytes) → Pairs D.disk self h → self.log.ajar ≡ false → 0 < self.end → map entry_bytes (entries_in payloads.now) ≡ drop self.packed h
            → IfErr result (λ e. Stays D.disk self.store h (log_disk self) (side_disk self) e.0 e.1) }
        ensures log { IfOk result (λ r. r.0.log ≡ self.log) }
        ensures store { IfOk result (λ r. r.0.store ≡ self.store) }
        ensures base { IfOk result (λ r. r.0.base ≡ self.base) }
        ensures used { IfOk result (λ r. r.0.used ≡ self.used) }
        ensures longest { IfOk result (λ r. IsLongest self.packed (entries_in payloads.now) r.1) }
        ensures some { IfOk result (λ r. 0 < r.1) }
        ensures within { IfOk result (λ r. r.1 ≤ length payloads.now) }
        ensures room { IfOk result (λ r. self.end + 1 + record_size self.packed r.1 (entries_in payloads.now) ≤ 2 ^ 30) }
        ensures end { IfOk result (λ r. r.0.end ≡ self.end + record_size self.packed r.1 (entries_in payloads.now)) }
        ensures packed { IfOk result (λ r. r.0.packed ≡ self.packed + r.1) }
        ensures full { IfErr result (λ e. FullAs self.end self.packed (entries_in payloads.now) e.2) }
        ensures whole { IfErr result (λ e. IsDamage e.2 → ⊥) }
        ensures calm { IfOk result (λ r. D.disk.faults (log_disk r.0) + D.disk.faults (side_disk r.0) ≡ D.disk.faults (log_disk self) + D.disk.faults (side_disk self)) }
        ensures fault { IfErr result (λ e. FaultCounts (D.disk.faults (log_disk self) + D.disk.faults (side_disk self)) (D.disk.faults e.0 + D.disk.faults e.1) e.2) }
    {
        let next = match next_segment(alloc, self.packed, payloads) {
            Ok(next) => next,
            Err(_) => return Err((self.log.into_disk(), self.side, PackFault::Memory)),
        };
        let length = next.framed.len() as u64;
        let size = self.end + 1;
        if size + length > MOST {
            return Err((
                self.log.into_disk(),
                self.side,
                PackFault::Full {
                    size,
                    length: length - 5,
                },
            ));
        }
        match self.with_segment(&next.framed, next.taken as u64) {
            Ok(pair) => Ok((pair, next.taken)),
            Err((log, side)) => Err((log, side, PackFault::DiskFault)),
        }
    }

    /// Adds the segments of these entries to the side, which are the list's behind those that it has.
    pub(crate) fn filled(
        self,
        alloc: Global,
        payloads: &[Bytes],
    ) -> Result<Pair<D>, (D, D, PackFault)>
        requires each { All IsPayload payloads.now }
        requires in_time { InTime 0 (entries_in payloads.now) }
        requires few { length payloads.now < 2 ^ 30 }
        ensures pairs { (h : List Bytes) → Pairs D.disk self h → 0 < self.end → map entry_bytes (entries_in payloads.now) ≡ drop self.packed h → IfOk result (λ p. Pairs D.disk p h) }
        // At each moment of the call the pair opens to the same list.
        ensures crash { (h : List Bytes) → Pairs D.disk self h → self.log.ajar ≡ false → 0 < self.end → map entry_bytes (entries_in payloads.now) ≡ drop self.packed h
            → IfOk result (λ p. Stays D.disk self.store h (log_disk self) (side_disk self) (log_disk p) (side_disk p)) }
        ensures crash_err { (h : List Bytes) → Pairs D.disk self h → self.log.ajar ≡ false → 0 < self.end → map entry_bytes (entries_in payloads.now) ≡ drop self.packed h
            → IfErr result (λ e. Stays D.disk self.store h (log_disk self) (side_disk self) e.0 e.1) }
        ensures log { IfOk result (λ p. p.log ≡ self.log) }
        ensures store { IfOk result (λ p. p.store ≡ self.store) }
        ensures base { IfOk result (λ p. p.base ≡ self.base) }
        ensures used { IfOk result (λ p. p.used ≡ self.used) }
        ensures packed { IfOk result (λ p. p.packed ≡ self.packed + length payloads.now) }
        ensures fills { IfOk result (λ p. Fills self.end self.packed (entries_in payloads.now) None) }
        ensures full { IfErr result (λ e. FullAs self.end self.packed (entries_in payloads.now) e.2) }
        ensures whole { IfErr result (λ e. IsDamage e.2 → ⊥) }
        ensures calm { IfOk result (λ p. D.disk.faults (log_disk p) + D.disk.faults (side_disk p) ≡ D.disk.faults (log_disk self) + D.disk.faults (side_disk self)) }
        ensures fault { IfErr result (λ e. FaultCounts (D.disk.faults (log_disk self) + D.disk.faults (side_disk self)) (D.disk.faults e.0 + D.disk.faults e.1) e.2) }
    {
        if payloads.is_empty() {
            return Ok(self);
        }
        let (pair, taken) = match self.with_next(alloc, payloads) {
            Ok(next) => next,
            Err(failed) => return Err(failed),
        };
        match pair.filled(alloc, behind(payloads, taken)) {
            Ok(pair) => Ok(pair),
            Err(failed) => Err(failed),
        }
    }
}
