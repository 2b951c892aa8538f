//! Packing a pair: its side takes the entries that only the log has, and then the log is emptied.
ghost use Rattle.std.specs.Prelude.{◌≡◌, ◌≤◌, ◌<◌, ◌+◌, ◌^◌, List, ℕ, Some, None, false, length, take, drop, map, All, IfOk, IfErr};
ghost use Rattle.news_io.specs.Faults.{Rose};
ghost use Rattle.news_io.specs.Keeper.{IsFramed, payload_of};
ghost use Rattle.news_types.specs.Names.{Bytes};
ghost use Rattle.news_journal.specs.Stands.{list_of};
ghost use Rattle.news_pair.specs.Segments.{segment_in};
ghost use Rattle.entry_codec.specs.Spelling.{entry_bytes};
ghost use Rattle.entry_segments.specs.Segment.{InTime};
ghost use Rattle.entry_segments.specs.Spelled.{entries_in, IsPayload};
ghost use Rattle.news_pair.specs.Stands.{log_disk, side_disk, Pairs, LogStays, SideStays};
ghost use Rattle.news_pair.specs.Keeper.{pair_of};
ghost use Rattle.news_pair.specs.Steps.{Stays};
ghost use Rattle.news_pair.specs.Packing.{pack_damage, IsPackDamage};
ghost use Rattle.news_pair.specs.Packed.{IsPacked};
ghost use Rattle.news_pair.specs.Filling.{Filled, IsFullExactly, first_gate};
ghost use Rattle.news_pair.specs.PackFaults.{FaultCounts, IsDamage, IsFull};

use crate::emptying::{empty_log, with_base};
use crate::entries::read_log;
use crate::next_segment::behind;
use crate::side_making::{create_side, side_header};
use crate::{PackFault, Pair};
use news_io::{Disk, Keeper};
use news_journal::Journal;
use news_types::Bytes;
use std::alloc::Global;

impl<D: Disk> Pair<D> {
    /// Empties the log, all of whose entries the side holds.
    fn emptied(self) -> Result<Pair<D>, (D, D)>
        ensures pairs { (h : List Bytes) → Pairs D.disk self h → self.log.ajar ≡ false → length h ≡ self.packed → 0 < length (list_of D.disk self.log) → IfOk result (λ p. Pairs D.disk p h) }
        // At each moment of the call the pair opens to the same list.
        ensures crash { (h : List Bytes) → Pairs D.disk self h → self.log.ajar ≡ false → length h ≡ self.packed → 0 < length (list_of D.disk self.log)
            → IfOk result (λ p. LogStays D.disk self.store h (side_disk self) (log_disk self) (log_disk p)) }
        ensures crash_err { (h : List Bytes) → Pairs D.disk self h → self.log.ajar ≡ false → length h ≡ self.packed → 0 < length (list_of D.disk self.log)
            → IfErr result (λ e. LogStays D.disk self.store h (side_disk self) (log_disk self) e.0) }
        ensures shut { IfOk result (λ p. p.log.ajar ≡ false) }
        ensures side { IfOk result (λ p. p.side ≡ self.side) }
        ensures side_err { IfErr result (λ e. e.1 ≡ self.side) }
        ensures store { IfOk result (λ p. p.store ≡ self.store) }
        ensures base { IfOk result (λ p. p.base ≡ self.packed) }
        ensures packed { IfOk result (λ p. p.packed ≡ self.packed) }
        ensures used { IfOk result (λ p. p.used ≡ self.used) }
        ensures calm { IfOk result (λ p. D.disk.faults (log_disk p) ≡ D.disk.faults (log_disk self)) }
        ensures fault { IfErr result (λ e. (D.disk.faults (log_disk self) ≤ D.disk.faults e.0) × Rose (D.disk.faults (log_disk self)) (D.disk.faults e.0)) }
    {
        let head = with_base(self.log.head(), self.packed);
        let mut log = self.log.into_disk();
        if let Err(_) = empty_log(&mut log, self.packed) {
            return Err((log, self.side));
        }
        Ok(Pair {
            log: Journal::at_gate(log, head, 64),
            side: self.side,
            store: self.store,
            base: self.packed,
            packed: self.packed,
            end: self.end,
            used: self.used,
        })
    }

    /// Makes the side, which stands for no segment.
    pub(crate) fn with_side(self) -> Result<Pair<D>, (D, D)>
        requires none { self.end ≡ 0 }
        ensures pairs { (h : List Bytes) → Pairs D.disk self h → IfOk result (λ p. Pairs D.disk p h) }
        // At each moment of the call the pair opens to the same list.
        ensures crash { (h : List Bytes) → Pairs D.disk self h → self.log.ajar ≡ false
            → IfOk result (λ p. SideStays D.disk self.store h (log_disk self) (side_disk self) (side_disk p)) }
        ensures crash_err { (h : List Bytes) → Pairs D.disk self h → self.log.ajar ≡ false
            → IfErr result (λ e. SideStays D.disk self.store h (log_disk self) (side_disk self) e.1) }
        ensures log { IfOk result (λ p. p.log ≡ self.log) }
        ensures log_err { IfErr result (λ e. e.0 ≡ log_disk self) }
        ensures store { IfOk result (λ p. p.store ≡ self.store) }
        ensures end { IfOk result (λ p. p.end ≡ 64) }
        ensures base { IfOk result (λ p. p.base ≡ self.base) }
        ensures packed { IfOk result (λ p. p.packed ≡ self.packed) }
        ensures used { IfOk result (λ p. p.used ≡ self.used) }
        ensures calm { IfOk result (λ p. D.disk.faults (side_disk p) ≡ D.disk.faults (side_disk self)) }
        ensures fault { IfErr result (λ e. (D.disk.faults (side_disk self) ≤ D.disk.faults e.1) × Rose (D.disk.faults (side_disk self)) (D.disk.faults e.1)) }
    {
        let mut side = self.side;
        if let Err(_) = create_side(&mut side, &self.store) {
            return Err((self.log.into_disk(), side));
        }
        Ok(Pair {
            log: self.log,
            side,
            store: self.store,
            base: self.base,
            packed: self.packed,
            end: 64,
            used: self.used,
        })
    }

    /// Adds a segment to the side, for which there is room: the next so many entries of the list.
    pub(crate) fn with_segment(self, framed: &[u8], count: u64) -> Result<Pair<D>, (D, D)>
        requires framed { IsFramed framed.now }
        requires room { self.end + 1 + length framed.now ≤ 2 ^ 30 }
        requires few { count ≤ length framed.now }
        ensures pairs { (h : List Bytes) → Pairs D.disk self h → 0 < self.end → (es : List Bytes) → segment_in (payload_of framed.now) ≡ Some (self.packed, es) → length es ≡ count → take count (drop self.packed h) ≡ es
            → IfOk result (λ p. Pairs D.disk p h) }
        // At each moment of the call the pair opens to the same list.
        ensures crash { (h : List Bytes) → Pairs D.disk self h → self.log.ajar ≡ false → 0 < self.end → (es : List Bytes) → segment_in (payload_of framed.now) ≡ Some (self.packed, es) → length es ≡ count → take count (drop self.packed h) ≡ es
            → IfOk result (λ p. SideStays D.disk self.store h (log_disk self) (side_disk self) (side_disk p)) }
        ensures crash_err { (h : List Bytes) → Pairs D.disk self h → self.log.ajar ≡ false → 0 < self.end → (es : List Bytes) → segment_in (payload_of framed.now) ≡ Some (self.packed, es) → length es ≡ count → take count (drop self.packed h) ≡ es
            → IfErr result (λ e. SideStays D.disk self.store h (log_disk self) (side_disk self) e.1) }
        ensures log { IfOk result (λ p. p.log ≡ self.log) }
        ensures log_err { IfErr result (λ e. e.0 ≡ log_disk self) }
        ensures store { IfOk result (λ p. p.store ≡ self.store) }
        ensures end { IfOk result (λ p. p.end ≡ self.end + length framed.now) }
        ensures base { IfOk result (λ p. p.base ≡ self.base) }
        ensures packed { IfOk result (λ p. p.packed ≡ self.packed + count) }
        ensures used { IfOk result (λ p. p.used ≡ self.used) }
        ensures calm { IfOk result (λ p. D.disk.faults (side_disk p) ≡ D.disk.faults (side_disk self)) }
        ensures fault { IfErr result (λ e. (D.disk.faults (side_disk self) ≤ D.disk.faults e.1) × Rose (D.disk.faults (side_disk self)) (D.disk.faults e.1)) }
    {
        let mut side = Journal::at_gate(self.side, side_header(&self.store), self.end);
        if let Err(_) = side.write_record(framed) {
            return Err((self.log.into_disk(), side.into_disk()));
        }
        let end = side.size() - 1;
        Ok(Pair {
            log: self.log,
            side: side.into_disk(),
            store: self.store,
            base: self.base,
            packed: self.packed + count,
            end,
            used: self.used,
        })
    }

    /// Reads the log anew: the pair with its entries, as their bytes.
    fn reread(self, alloc: Global) -> Result<(Pair<D>, Vec<Bytes>), (D, D, PackFault)>
        requires shut { self.log.ajar ≡ false }
        ensures pairs { (h : List Bytes) → Pairs D.disk self h → IfOk result (λ r. Pairs D.disk r.0 h) }
        ensures entries { (h : List Bytes) → Pairs D.disk self h → IfOk result (λ r. map entry_bytes (entries_in r.1.items) ≡ list_of D.disk r.0.log) }
        ensures each { IfOk result (λ r. All IsPayload r.1.items) }
        ensures in_time { IfOk result (λ r. InTime 0 (entries_in r.1.items)) }
        ensures few { IfOk result (λ r. length r.1.items < 2 ^ 30) }
        ensures whole { (h : List Bytes) → Pairs D.disk self h → IfOk result (λ r. pack_damage (D.disk.seen (log_disk self)) ≡ None) }
        ensures damage { (h : List Bytes) → Pairs D.disk self h → IfErr result (λ e. IsPackDamage (pack_damage (D.disk.seen (log_disk self))) e.2) }
        ensures full { IfErr result (λ e. IsFull e.2 → ⊥) }
        // At each moment of the call the pair opens to the same list.
        ensures crash { (h : List Bytes) → Pairs D.disk self h → IfOk result (λ r. Stays D.disk self.store h (log_disk self) (side_disk self) (log_disk r.0) (side_disk r.0)) }
        ensures crash_err { (h : List Bytes) → Pairs D.disk self h → IfErr result (λ e. Stays D.disk self.store h (log_disk self) (side_disk self) e.0 e.1) }
        ensures shut { IfOk result (λ r. r.0.log.ajar ≡ false) }
        ensures store { IfOk result (λ r. r.0.store ≡ self.store) }
        ensures base { IfOk result (λ r. r.0.base ≡ self.base) }
        ensures packed { IfOk result (λ r. r.0.packed ≡ self.packed) }
        ensures end { IfOk result (λ r. r.0.end ≡ self.end) }
        ensures used { IfOk result (λ r. r.0.used ≡ self.used) }
        ensures calm { IfOk result (λ r. D.disk.faults (log_disk r.0) + D.disk.faults (side_disk r.0) ≡ D.disk.faults (log_disk self) + D.disk.faults (side_disk self)) }
        ensures fault { IfErr result (λ e. FaultCounts (D.disk.faults (log_disk self) + D.disk.faults (side_disk self)) (D.disk.faults e.0 + D.disk.faults e.1) e.2) }
    {
        let head = *self.log.head();
        let gate = self.log.size() - 1;
        let mut log = self.log.into_disk();
        match read_log(alloc, &mut log) {
            Ok(payloads) => Ok((
                Pair {
                    log: Journal::at_gate(log, head, gate),
                    side: self.side,
                    store: self.store,
                    base: self.base,
                    packed: self.packed,
                    end: self.end,
                    used: self.used,
                },
                payloads,
            )),
            Err(fault) => Err((log, self.side, fault)),
        }
    }

    /// Packs these entries of the log, of which there is one at least.
    fn packed_with(self, alloc: Global, payloads: &[Bytes]) -> Result<Pair<D>, (D, D, PackFault)>
        requires some { 0 < length payloads.now }
        requires each { All IsPayload payloads.now }
        requires in_time { InTime 0 (entries_in payloads.now) }
        requires few { length payloads.now < 2 ^ 30 }
        ensures pairs { (h : List Bytes) → Pairs D.disk self h → self.log.ajar ≡ false → map entry_bytes (entries_in payloads.now) ≡ list_of D.disk self.log → IfOk result (λ p. Pairs D.disk p h) }
        ensures packed { (h : List Bytes) → Pairs D.disk self h → self.log.ajar ≡ false → map entry_bytes (entries_in payloads.now) ≡ list_of D.disk self.log → IfOk result (λ p. (p.packed ≡ length h) × (p.base ≡ p.packed)) }
        // At each moment of the call the pair opens to the same list.
        ensures crash { (h : List Bytes) → Pairs D.disk self h → self.log.ajar ≡ false → map entry_bytes (entries_in payloads.now) ≡ list_of D.disk self.log
            → IfOk result (λ p. Stays D.disk self.store h (log_disk self) (side_disk self) (log_disk p) (side_disk p)) }
        ensures crash_err { (h : List Bytes) → Pairs D.disk self h → self.log.ajar ≡ false → map entry_bytes (entries_in payloads.now) ≡ list_of D.disk self.log
            → IfErr result (λ e. Stays D.disk self.store h (log_disk self) (side_disk self) e.0 e.1) }
        ensures filled { (h : List Bytes) → Pairs D.disk self h → self.log.ajar ≡ false → map entry_bytes (entries_in payloads.now) ≡ list_of D.disk self.log
            → IfOk result (λ p. Filled (first_gate self.end) self.packed (drop self.packed h) None) }
        ensures full { (h : List Bytes) → Pairs D.disk self h → self.log.ajar ≡ false → map entry_bytes (entries_in payloads.now) ≡ list_of D.disk self.log
            → IfErr result (λ e. IsFullExactly (first_gate self.end) self.packed (drop self.packed h) e.2) }
        ensures whole { IfErr result (λ e. IsDamage e.2 → ⊥) }
        ensures shut { self.log.ajar ≡ false → IfOk result (λ p. p.log.ajar ≡ false) }
        ensures store { IfOk result (λ p. p.store ≡ self.store) }
        ensures used { IfOk result (λ p. p.used ≡ self.used) }
        ensures calm { IfOk result (λ p. D.disk.faults (log_disk p) + D.disk.faults (side_disk p) ≡ D.disk.faults (log_disk self) + D.disk.faults (side_disk self)) }
        ensures fault { IfErr result (λ e. FaultCounts (D.disk.faults (log_disk self) + D.disk.faults (side_disk self)) (D.disk.faults e.0 + D.disk.faults e.1) e.2) }
    {
        let both = self.packed.saturating_sub(self.base) as usize;
        let pair = match self.sided() {
            Ok(pair) => pair,
            Err(failed) => return Err(failed),
        };
        // Entries that the side has too need no second writing.
        let pair = match pair.filled(alloc, behind(payloads, both)) {
            Ok(pair) => pair,
            Err(failed) => return Err(failed),
        };
        match pair.emptied() {
            Ok(pair) => Ok(pair),
            Err((log, side)) => Err((log, side, PackFault::DiskFault)),
        }
    }

    /// Packs the pair: the side takes the entries that only the log has, in segments, and then the log is emptied. The answer is
    /// the number of the list's entries. A pair whose log has no record stays as it is.
    ///
    /// The log is read anew. It is damaged where it is none, where a record is no entry, and where a moment is below the one before it.
    pub fn pack(self, alloc: Global) -> Result<(Pair<D>, u64), (D, D, PackFault)>
        requires quiet { (pair_of D.disk).most_calls self ≡ 4 }
        ensures list { (h : List Bytes) → Pairs D.disk self h → IfOk result (λ r. Pairs D.disk r.0 h) }
        ensures count { (h : List Bytes) → Pairs D.disk self h → IfOk result (λ r. r.1 ≡ length h) }
        ensures emptied { (h : List Bytes) → Pairs D.disk self h → IfOk result (λ r. IsPacked D.disk r.0 h) }
        // At each moment of the call the pair opens to the same list.
        ensures crash { (h : List Bytes) → Pairs D.disk self h → IfOk result (λ r. Stays D.disk self.store h (log_disk self) (side_disk self) (log_disk r.0) (side_disk r.0)) }
        ensures crash_err { (h : List Bytes) → Pairs D.disk self h → IfErr result (λ e. Stays D.disk self.store h (log_disk self) (side_disk self) e.0 e.1) }
        // Ok is answered only where the log is whole, and damage is the first that shows that it is not.
        ensures whole { (h : List Bytes) → Pairs D.disk self h → IfOk result (λ r. pack_damage (D.disk.seen (log_disk self)) ≡ None) }
        ensures damage { (h : List Bytes) → Pairs D.disk self h → IfErr result (λ e. IsPackDamage (pack_damage (D.disk.seen (log_disk self))) e.2) }
        // Ok is answered only where the side has room for each segment, and Full only where it has none for the next one.
        ensures room { (h : List Bytes) → Pairs D.disk self h → IfOk result (λ r. Filled (first_gate self.end) self.packed (drop self.packed h) None) }
        ensures full { (h : List Bytes) → Pairs D.disk self h → IfErr result (λ e. IsFullExactly (first_gate self.end) self.packed (drop self.packed h) e.2) }
        ensures quiet { IfOk result (λ r. (pair_of D.disk).most_calls r.0 ≡ 4) }
        ensures used { IfOk result (λ r. (pair_of D.disk).used r.0 ≡ (pair_of D.disk).used self) }
        ensures store { IfOk result (λ r. r.0.store ≡ self.store) }
        ensures calm { IfOk result (λ r. (pair_of D.disk).faults r.0 ≡ (pair_of D.disk).faults self) }
        ensures fault { IfErr result (λ e. FaultCounts ((pair_of D.disk).faults self) (D.disk.faults e.0 + D.disk.faults e.1) e.2) }
    {
        let (pair, payloads) = match self.reread(alloc) {
            Ok(read) => read,
            Err(failed) => return Err(failed),
        };
        if payloads.is_empty() {
            let count = pair.packed;
            return Ok((pair, count));
        }
        match pair.packed_with(alloc, &payloads) {
            Ok(pair) => {
                let count = pair.packed;
                Ok((pair, count))
            }
            Err(failed) => Err(failed),
        }
    }
}
