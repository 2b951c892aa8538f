//! Opening a pair: both files are synced, and then read.
ghost use Rattle.std.specs.Prelude.{◌≡◌, ◌≢◌, false, true, ◌⊎◌, ◌<◌, ◌≤◌, ◌+◌, ◌^◌, [], List, ℕ, length, OnOk, IfOk, IfErr, IfSome};
ghost use Rattle.news_types.specs.Names.{Bytes};
ghost use Rattle.news_io.specs.Disk.{Only, DiskGains};
ghost use Rattle.news_io.specs.Faults.{Counts, Rose};
ghost use Rattle.news_journal.specs.Log.{records as log_records};
ghost use Rattle.news_journal.specs.Opened.{Still, AreFew, payloads};
ghost use Rattle.news_pair.specs.Pair.{HasNoRecord, PairOpens};
ghost use Rattle.news_pair.specs.Placed.{pair_records};
ghost use Rattle.news_pair.specs.Stands.{log_disk, side_disk, IsRoomHead, Pairs};
ghost use Rattle.news_pair.specs.Damage.{pair_damage, Judged, IsPairDamage};
ghost use Rattle.news_pair.specs.Faults.{FaultCounts};
ghost use Rattle.news_pair.specs.Opened.{IsRecordFile, IsLoaded, OpensAs, OpensStill};
ghost use Rattle.news_pair.specs.Keeper.{pair_of};
ghost use Rattle.news_pair.specs.declared.fault.PairFault.TheVariants.{DiskFault};
ghost use Rattle.news_journal.specs.declared.header.Header.TheVariants.{Room};

use crate::emptying::{with_base, write_base};
use crate::loaded::Loaded;
use crate::reading::read_both;
use crate::room_heading::RoomHead;
use crate::{Pair, PairFault};
use news_io::{Disk, Failed, Keeper};
use news_journal::{Header, Journal, Records};
use std::alloc::Global;

/// What a pair was opened to.
#[derive(Drop)]
pub struct OpenedPair<D> {
    /// The keeper of these records.
    pub pair: Pair<D>,
    /// What the log is for.
    pub header: Header,
    /// The records of the list, each with the place of its gate; those of the side have that of their segment.
    pub records: Records,
}

/// Puts the base of a log without a record right; the answer is the header that the log has then.
fn put_base<D: Disk>(
    log: &mut D,
    empty: bool,
    head: RoomHead,
    packed: u64,
) -> Result<RoomHead, Failed>
    requires packed { packed < 2 ^ 48 }
    requires head { IsRoomHead head.bytes head.store head.base }
    ensures file { D.disk.tells log.old → (gate : ℕ) (tail : List Bytes) → (empty ≡ true → tail ≡ []) → IsRecordFile head.bytes gate tail (D.disk.seen log.old)
        → IfOk result (λ now. IsRecordFile now.bytes gate tail (D.disk.seen log.new)) }
    ensures head { IfOk result (λ now. IsRoomHead now.bytes head.store now.base) }
    ensures store { IfOk result (λ now. now.store ≡ head.store) }
    ensures full { IfOk result (λ now. empty ≡ false → now.base ≡ head.base) }
    ensures empty { IfOk result (λ now. empty ≡ true → now.base ≡ packed) }
    ensures durable { D.disk.tells log.old → Only (D.disk.seen log.old) (D.disk.may_leave log.old) → OnOk result (Only (D.disk.seen log.new) (D.disk.may_leave log.new)) }
    ensures told { D.disk.tells log.old → D.disk.tells log.new }
    ensures crash { D.disk.tells log.old → Only (D.disk.seen log.old) (D.disk.may_leave log.old) → (gate : ℕ) (tail : List Bytes) → (empty ≡ true → tail ≡ []) → IsRecordFile head.bytes gate tail (D.disk.seen log.old)
        → DiskGains D.disk log.old log.new (λ (c : List ℕ). (tail ≡ []) × (head.base ≢ packed) × HasNoRecord head.store c) }
    ensures count { Counts (D.disk.faults log.old) (D.disk.faults log.new) result }
{
    if !empty {
        return Ok(head);
    }
    if head.base == packed {
        return Ok(head);
    }
    write_base(log, packed)?;
    Ok(RoomHead {
        bytes: with_base(&head.bytes, packed),
        store: head.store,
        base: packed,
    })
}

/// Syncs both files, and then reads them.
fn load_both<D: Disk>(alloc: Global, log: &mut D, side: &mut D) -> Result<Loaded, PairFault>
    ensures judged { D.disk.tells log.old → D.disk.tells side.old → Judged (pair_damage (D.disk.seen log.old) (D.disk.seen side.old)) result }
    ensures durable { D.disk.tells log.old → OnOk result (Only (D.disk.seen log.new) (D.disk.may_leave log.new)) }
    ensures durable_side { D.disk.tells side.old → OnOk result (Only (D.disk.seen side.new) (D.disk.may_leave side.new)) }
    ensures loaded { D.disk.tells log.old → D.disk.tells side.old → IfOk result (λ o. IsLoaded o (D.disk.seen log.old) (D.disk.seen side.old)) }
    ensures placed { D.disk.tells log.old → D.disk.tells side.old → IfOk result (λ o. o.gathered.records.items ≡ pair_records (D.disk.seen log.old) (D.disk.seen side.old)) }
    ensures head { IfOk result (λ o. IsRoomHead o.head.bytes o.head.store o.head.base) }
    ensures used { IfOk result (λ o. o.gathered.used ≡ 65 + length (log_records (payloads o.gathered.records.items))) }
    ensures few { IfOk result (λ o. AreFew o.gathered.records.items) }
    ensures still { D.disk.tells log.old → Still D.disk log.old log.new }
    ensures still_side { D.disk.tells side.old → Still D.disk side.old side.new }
    ensures fault { IfErr result (FaultCounts (D.disk.faults log.old + D.disk.faults side.old) (D.disk.faults log.new + D.disk.faults side.new)) }
    ensures calm { OnOk result (D.disk.faults log.new + D.disk.faults side.new ≡ D.disk.faults log.old + D.disk.faults side.old) }
{
    log.sync()?;
    side.sync()?;
    match read_both(alloc, log, side) {
        Ok(loaded) => Ok(loaded),
        Err(fault) => Err(fault),
    }
}

impl<D: Disk> Pair<D> {
    /// The pair of what was loaded.
    fn settled(mut log: D, side: D, loaded: Loaded) -> Result<OpenedPair<D>, (D, D, PairFault)>
        requires { IsRoomHead loaded.head.bytes loaded.head.store loaded.head.base }
        ensures pairs { D.disk.tells log → D.disk.tells side → Only (D.disk.seen log) (D.disk.may_leave log) → Only (D.disk.seen side) (D.disk.may_leave side)
            → IsLoaded loaded (D.disk.seen log) (D.disk.seen side)
            → IfOk result (λ o. Pairs D.disk o.pair (payloads o.records)) }
        ensures records { IfOk result (λ o. o.records ≡ loaded.gathered.records.items) }
        ensures header { IfOk result (λ o. o.header ≡ Room loaded.head.store) }
        ensures label { IfOk result (λ o. o.header ≡ Room ((pair_of D.disk).label o.pair)) }
        ensures used { IfOk result (λ o. o.pair.used ≡ loaded.gathered.used) }
        ensures shut { IfOk result (λ o. o.pair.log.ajar ≡ false) }
        ensures side { IfOk result (λ o. o.pair.side ≡ side) }
        ensures side_err { IfErr result (λ e. e.1 ≡ side) }
        ensures calm { IfOk result (λ o. D.disk.faults o.pair.log.disk ≡ D.disk.faults log) }
        ensures fault { IfErr result (λ e. (e.2 ≡ DiskFault) × (D.disk.faults log ≤ D.disk.faults e.0) × Rose (D.disk.faults log) (D.disk.faults e.0)) }
        // At each moment of the call the two files open to the same list.
        ensures crash { D.disk.tells log → D.disk.tells side → Only (D.disk.seen log) (D.disk.may_leave log) → Only (D.disk.seen side) (D.disk.may_leave side)
            → IsLoaded loaded (D.disk.seen log) (D.disk.seen side)
            → IfOk result (λ o. DiskGains D.disk log o.pair.log.disk (λ (c : List ℕ). (s : List ℕ) → D.disk.may_leave side s → PairOpens loaded.head.store c s (payloads loaded.gathered.records.items))) }
        ensures crash_err { D.disk.tells log → D.disk.tells side → Only (D.disk.seen log) (D.disk.may_leave log) → Only (D.disk.seen side) (D.disk.may_leave side)
            → IsLoaded loaded (D.disk.seen log) (D.disk.seen side)
            → IfErr result (λ e. DiskGains D.disk log e.0 (λ (c : List ℕ). (s : List ℕ) → D.disk.may_leave side s → PairOpens loaded.head.store c s (payloads loaded.gathered.records.items))) }
    {
        match put_base(&mut log, loaded.empty, loaded.head, loaded.gathered.packed) {
            Err(_) => Err((log, side, PairFault::DiskFault)),
            Ok(head) => Ok(OpenedPair {
                pair: Pair {
                    log: Journal::at_gate(log, head.bytes, loaded.gate),
                    side,
                    store: head.store,
                    base: head.base,
                    packed: loaded.gathered.packed,
                    end: loaded.gathered.end,
                    used: loaded.gathered.used,
                },
                header: Header::Room { store: head.store },
                records: Records::of(loaded.gathered.records),
            }),
        }
    }

    /// The pair of a log and its side, with the records of the list. Both are synced before they are read.
    ///
    /// Where the log has no record and another base than the number of the side's entries, that is written to it.
    pub fn open(alloc: Global, mut log: D, mut side: D) -> Result<OpenedPair<D>, (D, D, PairFault)>
        ensures opens { D.disk.tells log → D.disk.tells side → IfOk result (λ o. OpensAs o.header o.records (D.disk.seen log) (D.disk.seen side)) }
        // Each record has the place of its gate, and those of the side the place of their segment's.
        ensures records { D.disk.tells log → D.disk.tells side → IfOk result (λ o. o.records ≡ pair_records (D.disk.seen log) (D.disk.seen side)) }
        // Ok is answered only where the files are a pair, and damage is the first that shows that they are none.
        ensures whole { D.disk.tells log → D.disk.tells side → OnOk result (pair_damage (D.disk.seen log) (D.disk.seen side) ≡ None) }
        ensures damage { D.disk.tells log → D.disk.tells side → IfErr result (λ e. IsPairDamage (pair_damage (D.disk.seen log) (D.disk.seen side)) e.2) }
        ensures few { IfOk result (λ o. AreFew o.records) }
        // The keeper holds the records of the store that the header names, and nothing is in doubt.
        ensures label { IfOk result (λ o. o.header ≡ Room ((pair_of D.disk).label o.pair)) }
        ensures tells { D.disk.tells log → D.disk.tells side → IfOk result (λ o. (pair_of D.disk).tells o.pair) }
        ensures list { D.disk.tells log → D.disk.tells side → IfOk result (λ o. (pair_of D.disk).list o.pair ≡ payloads o.records) }
        ensures doubts { IfOk result (λ o. (x : List ℕ) → (pair_of D.disk).doubts o.pair x → ⊥) }
        ensures quiet { IfOk result (λ o. (pair_of D.disk).most_calls o.pair ≡ 4) }
        ensures used { IfOk result (λ o. (pair_of D.disk).used o.pair ≡ 65 + length (log_records (payloads o.records))) }
        // A crash leaves what it could leave before, or files that open to the same list.
        ensures crash { D.disk.tells log → D.disk.tells side → IfOk result (λ o. DiskGains D.disk log (log_disk o.pair)
            (λ (c : List ℕ). D.disk.may_leave log c ⊎ OpensStill (D.disk.seen log) (D.disk.seen side) (D.disk.may_leave (side_disk o.pair)) c)) }
        ensures crash_err { D.disk.tells log → D.disk.tells side → IfErr result (λ e. DiskGains D.disk log e.0
            (λ (c : List ℕ). D.disk.may_leave log c ⊎ OpensStill (D.disk.seen log) (D.disk.seen side) (D.disk.may_leave e.1) c)) }
        // Only the base of a log is ever written: where that did not fail, an error leaves both files as they are.
        ensures still_log_err { D.disk.tells log → IfErr result (λ e. (e.2 ≢ DiskFault) → Still D.disk log e.0) }
        ensures still { D.disk.tells side → IfOk result (λ o. Still D.disk side (side_disk o.pair)) }
        ensures still_err { D.disk.tells side → IfErr result (λ e. Still D.disk side e.1) }
        ensures calm { IfOk result (λ o. (pair_of D.disk).faults o.pair ≡ D.disk.faults log + D.disk.faults side) }
        ensures fault { IfErr result (λ e. FaultCounts (D.disk.faults log + D.disk.faults side) (D.disk.faults e.0 + D.disk.faults e.1) e.2) }
    {
        let loaded = match load_both(alloc, &mut log, &mut side) {
            Ok(loaded) => loaded,
            Err(fault) => return Err((log, side, fault)),
        };
        match Pair::settled(log, side, loaded) {
            Ok(opened) => Ok(opened),
            Err(failed) => Err(failed),
        }
    }
}
