//! Reading a log and its side.
ghost use Rattle.std.specs.Prelude.{◌≡◌, [], ◌*◌, All, false, true, ◌<◌, ◌≤◌, ◌+◌, ◌^◌, length, slice_get, unwrap_or, OnOk, IfOk, IfErr, IfSome};
ghost use Rattle.news_journal.specs.Log.{records as log_records};
ghost use Rattle.news_journal.specs.Opened.{Still, IsOfLog, AreFew, payloads, places};
ghost use Rattle.news_pair.specs.Pair.{AreSegments, packed_by};
ghost use Rattle.news_pair.specs.Placed.{side_records, all_records, pair_records};
ghost use Rattle.news_pair.specs.Stands.{IsRoomHead};
ghost use Rattle.news_pair.specs.Damage.{records_in, log_damage, segments_damage, list_damage, pair_damage, on_log, Judged};
ghost use Rattle.news_pair.specs.Faults.{IsDiskFault, FaultCounts};
ghost use Rattle.news_pair.specs.Opened.{IsRecordFile, BareBase, segments_of, places_of, end_of, IsGathered, IsLoaded};

use crate::PairFault;
use crate::checking::check_entries;
use crate::loaded::{Gathered, Loaded};
use crate::meeting::{joined, meet, size_of};
use crate::room_heading::{RoomHead, read_room_header};
use crate::side_reading::{SideLog, read_side};
use crate::unpacking::unpack_all;
use news_io::{Disk, Record};
use news_journal::{Window, read_records};
use std::alloc::Global;

/// A room's log as it was read.
#[derive(Drop)]
pub struct RoomLog {
    pub head: RoomHead,
    /// The place of the closed gate.
    pub gate: u64,
    pub records: Vec<Record>,
}

/// Reads a room's log.
pub fn read_room<D: Disk>(alloc: Global, disk: &mut D) -> Result<RoomLog, PairFault>
    ensures judged { D.disk.tells disk.old → Judged (on_log (log_damage (D.disk.seen disk.old))) result }
    ensures head { IfOk result (λ o. IsRoomHead o.head.bytes o.head.store o.head.base) }
    ensures reads { D.disk.tells disk.old → IfOk result (λ o. IsRecordFile o.head.bytes o.gate (payloads o.records.items) (D.disk.seen disk.old)) }
    ensures records { D.disk.tells disk.old → IfOk result (λ o. records_in (D.disk.seen disk.old) ≡ places o.records.items) }
    ensures place { IfOk result (λ o. o.gate ≡ 64 + length (log_records (payloads o.records.items))) }
    ensures small { IfOk result (λ o. o.gate < 2 ^ 30) }
    ensures few { IfOk result (λ o. AreFew o.records.items) }
    ensures of_log { IfOk result (λ o. All IsOfLog o.records.items) }
    ensures still { Still D.disk disk.old disk.new }
    ensures fault { IfErr result (FaultCounts (D.disk.faults disk.old) (D.disk.faults disk.new)) }
    ensures calm { OnOk result (D.disk.faults disk.new ≡ D.disk.faults disk.old) }
{
    let mut window = Window::new(alloc);
    window.cover(disk, 0, 64)?;
    let head = read_room_header(window.part(0, 64))?;
    let (gate, records) = read_records(alloc, disk, &mut window)?;
    Ok(RoomLog {
        head,
        gate,
        records,
    })
}

/// The entries of a side, and the place of its closed gate.
fn entries_beside(
    alloc: Global,
    head: &RoomHead,
    found: Option<SideLog>,
) -> Result<(u64, Vec<Record>), PairFault>
    requires { IfSome found (λ o. AreFew o.records.items) }
    ensures judged { Judged (segments_damage head.now.base (slice_get head.now.bytes 10) (places_of found)) result }
    ensures are { OnOk result (AreSegments 0 (segments_of found)) }
    ensures bare { OnOk result (BareBase found head.now.base) }
    ensures end { IfOk result (λ o. o.0 ≡ end_of found) }
    ensures entries { IfOk result (λ o. payloads o.1.items ≡ packed_by (segments_of found)) }
    ensures placed { IfOk result (λ o. o.1.items ≡ side_records (unwrap_or (places_of found) [])) }
    ensures few { IfOk result (λ o. 2 * length o.1.items ≤ length (log_records (segments_of found))) }
    ensures at { IfOk result (λ o. All (λ r. r.at < 2 ^ 30) o.1.items) }
    ensures fault { IfErr result (λ e. IsDiskFault e → ⊥) }
{
    let Some(side) = found else {
        if head.base != 0 {
            return Err(PairFault::Damaged {
                at: 10,
                found: Some(head.bytes[10]),
            });
        }
        return Ok((0, Vec::new(alloc)));
    };
    let entries = unpack_all(alloc, &side.records)?;
    Ok((side.gate, entries))
}

/// Puts the records of both files into one list.
pub fn gather(
    alloc: Global,
    head: &RoomHead,
    log: Vec<Record>,
    found: Option<SideLog>,
) -> Result<Gathered, PairFault>
    requires base { head.now.base < 2 ^ 48 }
    requires few { IfSome found (λ o. AreFew o.records.items) }
    requires few_log { AreFew log.items }
    requires size { length (log_records (segments_of found)) < 2 ^ 30 }
    requires place { IfSome found (λ o. o.gate ≡ 64 + length (log_records (payloads o.records.items))) }
    requires near { IfSome found (λ o. o.gate < 2 ^ 30) }
    requires size_log { length (log_records (payloads log.items)) < 2 ^ 30 }
    ensures judged { Judged (list_damage head.now.base (slice_get head.now.bytes 10) (places log.items) (places_of found)) result }
    ensures gathered { IfOk result (λ o. IsGathered head.now.base (payloads log.items) found o.packed o.end o.used (payloads o.records.items)) }
    ensures placed { All IsOfLog log.items → IfOk result (λ o. o.records.items ≡ all_records head.now.base (places log.items) (places_of found)) }
    ensures room { IfOk result (λ o. 65 + length (log_records (payloads log.items)) ≤ o.used) }
    ensures small { IfOk result (λ o. o.used < 2 ^ 62) }
    ensures few { IfOk result (λ o. o.packed ≤ o.end) }
    ensures near { IfOk result (λ o. o.end < 2 ^ 30) }
    ensures all_few { IfOk result (λ o. AreFew o.records.items) }
    ensures fault { IfErr result (λ e. IsDiskFault e → ⊥) }
{
    let (end, side) = entries_beside(alloc, head, found)?;
    check_entries(alloc, &log)?;
    meet(head.base, head.bytes[10], &side, &log)?;
    let packed = side.len() as u64;
    let skip = packed.saturating_sub(head.base) as usize;
    let records = joined(side, log, skip)?;
    let used = size_of(&records)?;
    Ok(Gathered {
        packed,
        end,
        used,
        records,
    })
}

fn has_none(records: &[Record]) -> bool
    ensures none { result ≡ true → payloads records.now ≡ [] }
    ensures some { result ≡ false → 0 < length (payloads records.now) }
{
    records.is_empty()
}

/// Reads both files.
pub fn read_both<D: Disk>(alloc: Global, log: &mut D, side: &mut D) -> Result<Loaded, PairFault>
    ensures judged { D.disk.tells log.old → D.disk.tells side.old → Judged (pair_damage (D.disk.seen log.old) (D.disk.seen side.old)) result }
    ensures loaded { D.disk.tells log.old → D.disk.tells side.old → IfOk result (λ o. IsLoaded o (D.disk.seen log.old) (D.disk.seen side.old)) }
    ensures placed { D.disk.tells log.old → D.disk.tells side.old → IfOk result (λ o. o.gathered.records.items ≡ pair_records (D.disk.seen log.old) (D.disk.seen side.old)) }
    ensures head { IfOk result (λ o. IsRoomHead o.head.bytes o.head.store o.head.base) }
    ensures used { IfOk result (λ o. o.gathered.used ≡ 65 + length (log_records (payloads o.gathered.records.items))) }
    ensures few { IfOk result (λ o. AreFew o.gathered.records.items) }
    ensures still { Still D.disk log.old log.new }
    ensures still_side { Still D.disk side.old side.new }
    ensures fault { IfErr result (FaultCounts (D.disk.faults log.old + D.disk.faults side.old) (D.disk.faults log.new + D.disk.faults side.new)) }
    ensures calm { OnOk result (D.disk.faults log.new + D.disk.faults side.new ≡ D.disk.faults log.old + D.disk.faults side.old) }
{
    let RoomLog {
        head,
        gate,
        records,
    } = read_room(alloc, log)?;
    let found = read_side(alloc, side, &head.store)?;
    let empty = has_none(&records);
    let gathered = gather(alloc, &head, records, found)?;
    Ok(Loaded {
        head,
        gate,
        empty,
        gathered,
    })
}
