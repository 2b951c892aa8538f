//! Reading the entries of a log that is packed, as their bytes.
ghost use Rattle.std.specs.Prelude.{◌≡◌, ◌<◌, ◌≤◌, ◌-◌, ◌^◌, ℕ, length, map, All, Ok, Err, OnOk, IfOk, IfErr};
ghost use Rattle.byte_formats.specs.Gives.{all_of};
ghost use Rattle.entry_codec.specs.Spelling.{entry_bytes};
ghost use Rattle.entry_codec.specs.Commands.{entry};
ghost use Rattle.entry_codec.specs.declared.fault.CodecFault.TheVariants.{At};
ghost use Rattle.entry_segments.specs.Segment.{InTime};
ghost use Rattle.entry_segments.specs.Spelled.{entry_in, entries_in, IsPayload};
ghost use Rattle.news_journal.specs.Opened.{Still, payloads, places, AreFew};
ghost use Rattle.news_pair.specs.Damage.{payloads_in, records_in};
ghost use Rattle.news_pair.specs.Packing.{no_later, out_of_order, pack_damage, JudgedPack};
ghost use Rattle.news_pair.specs.PackFaults.{met_in_reading, IsDiskFault, IsFull, FaultCounts};

use crate::reading::read_room;
use crate::{PackFault, PairFault};
use entry_codec::{CodecFault, moment_of};
use news_io::{Disk, Record};
use news_types::{Bytes, Moment};
use std::alloc::{AllocError, Global};

/// The moment of the entry that these bytes are.
fn moment_in(alloc: Global, payload: &[u8]) -> Result<Moment, CodecFault>
    ensures found { OnOk result (IsPayload payload.now) }
    ensures read { IfOk result (λ m. all_of entry payload.now ≡ Ok (entry_in payload.now) × (m ≡ (entry_in payload.now).moment)) }
    ensures fault { (at : ℕ) → result ≡ Err (At at) → (at ≤ length payload.now) × (all_of entry payload.now ≡ Err (length payload.now - at)) }
{
    match moment_of(alloc, payload) {
        Ok(moment) => Ok(moment),
        Err(fault) => Err(fault),
    }
}

/// The moment of a record's entry, which is at least that of the one before it.
fn read_moment(alloc: Global, kept: &Record, before: Moment) -> Result<Moment, PackFault>
    requires { kept.now.at < 2 ^ 30 }
    ensures judged { JudgedPack (no_later before (kept.now.at, kept.now.bytes)) result }
    ensures found { OnOk result (IsPayload kept.now.bytes) }
    ensures read { IfOk result (λ m. all_of entry kept.now.bytes ≡ Ok (entry_in kept.now.bytes) × (m ≡ (entry_in kept.now.bytes).moment)) }
    ensures later { OnOk result (before ≤ (entry_in kept.now.bytes).moment) }
    ensures fault { IfErr result (λ e. IsDiskFault e → ⊥) }
    ensures full { IfErr result (λ e. IsFull e → ⊥) }
{
    let payload = kept.bytes.as_slice();
    match moment_in(alloc, payload) {
        Ok(moment) => {
            if moment < before {
                return Err(PackFault::Damaged {
                    at: kept.at,
                    found: Some(1),
                });
            }
            Ok(moment)
        }
        Err(CodecFault::At { at }) => Err(PackFault::Damaged {
            at: kept.at + 5 + at,
            found: payload.get(at as usize).copied(),
        }),
        Err(CodecFault::Memory) => Err(PackFault::Memory),
    }
}

/// Asks whether these records are entries whose moments do not fall.
fn check_order(alloc: Global, records: &[Record]) -> Result<(), PackFault>
    requires { AreFew records.now }
    ensures judged { JudgedPack (out_of_order 0 (places records.now)) result }
    ensures each { OnOk result (All IsPayload (payloads records.now)) }
    ensures in_time { OnOk result (InTime 0 (entries_in (payloads records.now))) }
    ensures fault { IfErr result (λ e. IsDiskFault e → ⊥) }
    ensures full { IfErr result (λ e. IsFull e → ⊥) }
{
    let mut moment = 0;
    for kept in records {
        moment = read_moment(alloc, kept, moment)?;
    }
    Ok(())
}

/// The bytes of these records.
fn payloads_of(alloc: Global, records: Vec<Record>) -> Result<Vec<Bytes>, AllocError>
    ensures { IfOk result (λ bytes. bytes.items ≡ payloads records.items) }
{
    let mut payloads = Vec::with_capacity(alloc, records.len())?;
    for kept in records {
        payloads.push(kept.bytes)?;
    }
    Ok(payloads)
}

/// A fault that reading the log met.
fn met_in_reading(fault: PairFault) -> PackFault
    ensures { result ≡ met_in_reading fault }
{
    match fault {
        PairFault::DiskFault => PackFault::DiskFault,
        PairFault::Damaged { at, found } => PackFault::Damaged { at, found },
        PairFault::DamagedSide { at, found } => PackFault::Damaged { at, found },
        PairFault::Memory => PackFault::Memory,
    }
}

/// Reads a room's log, whose records have to be entries with moments that do not fall: their bytes.
pub fn read_log<D: Disk>(alloc: Global, disk: &mut D) -> Result<Vec<Bytes>, PackFault>
    ensures judged { D.disk.tells disk.old → JudgedPack (pack_damage (D.disk.seen disk.old)) result }
    ensures entries { D.disk.tells disk.old → IfOk result (λ ps. map entry_bytes (entries_in ps.items) ≡ payloads_in (records_in (D.disk.seen disk.old))) }
    ensures each { IfOk result (λ ps. All IsPayload ps.items) }
    ensures in_time { IfOk result (λ ps. InTime 0 (entries_in ps.items)) }
    ensures few { IfOk result (λ ps. length ps.items < 2 ^ 30) }
    ensures still { Still D.disk disk.old disk.new }
    ensures full { IfErr result (λ e. IsFull e → ⊥) }
    ensures fault { IfErr result (FaultCounts (D.disk.faults disk.old) (D.disk.faults disk.new)) }
    ensures calm { OnOk result (D.disk.faults disk.new ≡ D.disk.faults disk.old) }
{
    let room = match read_room(alloc, disk) {
        Ok(room) => room,
        Err(fault) => return Err(met_in_reading(fault)),
    };
    match check_order(alloc, &room.records) {
        Ok(()) => {
            let payloads = payloads_of(alloc, room.records)?;
            Ok(payloads)
        }
        Err(fault) => Err(fault),
    }
}
