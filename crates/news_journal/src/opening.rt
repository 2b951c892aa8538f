//! Opening a log: everything is synced, and then read ahead in large pieces.
ghost use Rattle.std.specs.Prelude.{All, ◌≡◌, ◌<◌, ◌≤◌, ◌+◌, ◌^◌, [], List, ℕ, false, None, length, take, drop, OnOk, IfOk, IfErr, IfSome};
ghost use Rattle.news_io.specs.Disk.{Only};
ghost use Rattle.news_io.specs.Moments.{Elapses};
ghost use Rattle.news_journal.specs.Log.{IsHead, records as log_records};
ghost use Rattle.news_journal.specs.Damage.{damage};
ghost use Rattle.news_journal.specs.Stands.{disk_of, head_of};
ghost use Rattle.news_journal.specs.Window.{Shows};
ghost use Rattle.news_journal.specs.Opened.{Still, FaultCounts, IsDamage, LooksAs, HeadAs, PayloadAs, ReadsAs, RecordsAs, HoldsRecords, IsLog, IsOfLog, AreFew, payloads, places};
ghost use Rattle.news_journal.specs.Journal.{journal_of};

use crate::heading::read_header;
use crate::window::Window;
use crate::{Header, Journal, OpenFault, Records};
use news_io::{Disk, Keeper, Record};
use news_types::Bytes;
use std::alloc::Global;

/// What a log was opened to.
#[derive(Drop)]
pub struct Opened<D> {
    /// The keeper of these records.
    pub journal: Journal<D>,
    /// What the log is for.
    pub header: Header,
    /// Its records, each with the place of its gate.
    pub records: Records,
}

/// The most bytes of a payload.
const MOST: u32 = 4194304;

/// Every gate stands before this place.
const END: u64 = 1 << 30;

/// What the first bytes from a gate on say: the length of a record, or that the gate is closed.
fn look(gate: u64, head: &[u8]) -> Result<Option<u32>, OpenFault>
    requires short { length head.now ≤ 5 }
    requires place { gate < 2 ^ 30 }
    ensures looks { LooksAs gate head.now result }
    ensures small { IfOk result (λ o. IfSome o (λ n. (n ≤ 4194304) × (gate + 5 + n < 2 ^ 30))) }
{
    if head.is_empty() {
        return Err(OpenFault::Damaged {
            at: gate,
            found: None,
        });
    }
    if head[0] != 1 {
        return Ok(None);
    }
    if head.len() < 5 {
        return Err(OpenFault::Damaged {
            at: gate + 1,
            found: head.get(1).copied(),
        });
    }
    let length = u32::from_be_bytes([head[1], head[2], head[3], head[4]]);
    if length > MOST {
        return Err(OpenFault::Damaged {
            at: gate + 1,
            found: Some(head[1]),
        });
    }
    if gate + 5 + length as u64 >= END {
        return Err(OpenFault::Damaged {
            at: gate + 1,
            found: Some(head[1]),
        });
    }
    Ok(Some(length))
}

fn read_head<D: Disk>(
    disk: &mut D,
    window: &mut Window,
    gate: u64,
) -> Result<Option<u32>, OpenFault>
    requires { gate < 2 ^ 30 }
    ensures reads { D.disk.tells disk.old → Shows window.old (D.disk.seen disk.old) → HeadAs gate (drop gate (D.disk.seen disk.old)) result }
    ensures small { IfOk result (λ o. IfSome o (λ n. (n ≤ 4194304) × (gate + 5 + n < 2 ^ 30))) }
    ensures shows { D.disk.tells disk.old → Shows window.old (D.disk.seen disk.old) → OnOk result (Shows window.new (D.disk.seen disk.old)) }
    ensures still { Still D.disk disk.old disk.new }
    ensures fault { IfErr result (FaultCounts (D.disk.faults disk.old) (D.disk.faults disk.new)) }
    ensures calm { OnOk result (D.disk.faults disk.new ≡ D.disk.faults disk.old) }
{
    window.cover(disk, gate, 5)?;
    look(gate, window.part(gate, 5))
}

/// The payload, or None where the file ends before the next gate.
fn read_payload<D: Disk>(
    alloc: Global,
    disk: &mut D,
    window: &mut Window,
    at: u64,
    count: u32,
) -> Result<Option<Bytes>, OpenFault>
    requires place { at < 2 ^ 31 }
    requires count { count ≤ 4194304 }
    ensures reads { D.disk.tells disk.old → Shows window.old (D.disk.seen disk.old) → PayloadAs count (drop at (D.disk.seen disk.old)) result }
    ensures size { IfOk result (λ o. IfSome o (λ bytes. length bytes ≡ count)) }
    ensures shows { D.disk.tells disk.old → Shows window.old (D.disk.seen disk.old) → OnOk result (Shows window.new (D.disk.seen disk.old)) }
    ensures still { Still D.disk disk.old disk.new }
    ensures fault { IfErr result (FaultCounts (D.disk.faults disk.old) (D.disk.faults disk.new)) }
    ensures calm { OnOk result (D.disk.faults disk.new ≡ D.disk.faults disk.old) }
{
    let size = count as usize;
    window.cover(disk, at, size + 1)?;
    let bytes = window.part(at, size + 1);
    if bytes.len() <= size {
        return Ok(None);
    }
    Ok(Some(Bytes::copy_of(alloc, &bytes[..size])?))
}

/// The record behind a gate, or None where the gate is closed.
fn read_record<D: Disk>(
    alloc: Global,
    disk: &mut D,
    window: &mut Window,
    gate: u64,
) -> Result<Option<Bytes>, OpenFault>
    requires { gate < 2 ^ 30 }
    ensures reads { D.disk.tells disk.old → Shows window.old (D.disk.seen disk.old) → ReadsAs gate (drop gate (D.disk.seen disk.old)) result }
    ensures small { IfOk result (λ o. IfSome o (λ bytes. gate + 5 + length bytes < 2 ^ 30)) }
    ensures shows { D.disk.tells disk.old → Shows window.old (D.disk.seen disk.old) → OnOk result (Shows window.new (D.disk.seen disk.old)) }
    ensures still { Still D.disk disk.old disk.new }
    ensures fault { IfErr result (FaultCounts (D.disk.faults disk.old) (D.disk.faults disk.new)) }
    ensures calm { OnOk result (D.disk.faults disk.new ≡ D.disk.faults disk.old) }
{
    let Some(length) = read_head(disk, window, gate)? else {
        return Ok(None);
    };
    let Some(bytes) = read_payload(alloc, disk, window, gate + 5, length)? else {
        // The first byte of a length within the limit.
        return Err(OpenFault::Damaged {
            at: gate + 1,
            found: Some(0),
        });
    };
    Ok(Some(bytes))
}

/// The records from the first gate on, and the place of the closed gate behind them.
pub fn read_records<D: Disk>(
    alloc: Global,
    disk: &mut D,
    window: &mut Window,
) -> Result<(u64, Vec<Record>), OpenFault>
    ensures reads { D.disk.tells disk.old → Shows window.old (D.disk.seen disk.old) → 64 ≤ length (D.disk.seen disk.old) → RecordsAs (D.disk.seen disk.old) result }
    ensures place { IfOk result (λ o. o.0 ≡ 64 + length (log_records (payloads o.1.items))) }
    ensures small { IfOk result (λ o. o.0 < 2 ^ 30) }
    ensures few { IfOk result (λ o. AreFew o.1.items) }
    ensures of_log { IfOk result (λ o. All IsOfLog o.1.items) }
    ensures still { Still D.disk disk.old disk.new }
    ensures fault { IfErr result (FaultCounts (D.disk.faults disk.old) (D.disk.faults disk.new)) }
    ensures calm { OnOk result (D.disk.faults disk.new ≡ D.disk.faults disk.old) }
{
    let mut records = Vec::new(alloc);
    let mut gate = 64;
    while let Some(bytes) = read_record(alloc, disk, window, gate)? {
        let length = bytes.as_slice().len() as u64;
        records.push(Record {
            at: gate,
            side: false,
            bytes,
        })?;
        gate += 5 + length;
    }
    Ok((gate, records))
}

/// A log as it was read.
#[derive(Drop)]
struct Log {
    head: [u8; 64],
    header: Header,
    /// The place of the closed gate.
    gate: u64,
    records: Vec<Record>,
}

/// Reads a log.
fn read_log<D: Disk>(alloc: Global, disk: &mut D) -> Result<Log, OpenFault>
    ensures whole { D.disk.tells disk.old → OnOk result (damage (D.disk.seen disk.old) ≡ None) }
    ensures damage { D.disk.tells disk.old → IfErr result (IsDamage (damage (D.disk.seen disk.old))) }
    ensures head { D.disk.tells disk.old → IfOk result (λ o. o.head ≡ take 64 (D.disk.seen disk.old)) }
    ensures header { D.disk.tells disk.old → IfOk result (λ o. IsHead o.header (take 64 (D.disk.seen disk.old))) }
    ensures reads { D.disk.tells disk.old → IfOk result (λ o. HoldsRecords (D.disk.seen disk.old) o.gate o.records.items) }
    ensures place { IfOk result (λ o. o.gate ≡ 64 + length (log_records (payloads o.records.items))) }
    ensures small { IfOk result (λ o. o.gate < 2 ^ 30) }
    ensures few { IfOk result (λ o. AreFew o.records.items) }
    ensures of_log { IfOk result (λ o. All IsOfLog o.records.items) }
    ensures still { Still D.disk disk.old disk.new }
    ensures fault { IfErr result (FaultCounts (D.disk.faults disk.old) (D.disk.faults disk.new)) }
    ensures calm { OnOk result (D.disk.faults disk.new ≡ D.disk.faults disk.old) }
{
    let mut window = Window::new(alloc);
    window.cover(disk, 0, 64)?;
    let (head, header) = read_header(window.part(0, 64))?;
    let (gate, records) = read_records(alloc, disk, &mut window)?;
    Ok(Log {
        head,
        header,
        gate,
        records,
    })
}

/// Syncs, and then reads.
fn load<D: Disk>(alloc: Global, disk: &mut D) -> Result<Log, OpenFault>
    ensures durable { D.disk.tells disk.old → OnOk result (Only (D.disk.seen disk.new) (D.disk.may_leave disk.new)) }
    ensures whole { D.disk.tells disk.old → OnOk result (damage (D.disk.seen disk.old) ≡ None) }
    ensures damage { D.disk.tells disk.old → IfErr result (IsDamage (damage (D.disk.seen disk.old))) }
    ensures head { D.disk.tells disk.old → IfOk result (λ o. o.head ≡ take 64 (D.disk.seen disk.old)) }
    ensures header { D.disk.tells disk.old → IfOk result (λ o. IsHead o.header (take 64 (D.disk.seen disk.old))) }
    ensures reads { D.disk.tells disk.old → IfOk result (λ o. HoldsRecords (D.disk.seen disk.old) o.gate o.records.items) }
    ensures place { IfOk result (λ o. o.gate ≡ 64 + length (log_records (payloads o.records.items))) }
    ensures small { IfOk result (λ o. o.gate < 2 ^ 30) }
    ensures few { IfOk result (λ o. AreFew o.records.items) }
    ensures of_log { IfOk result (λ o. All IsOfLog o.records.items) }
    ensures still { D.disk.tells disk.old → Still D.disk disk.old disk.new }
    ensures fault { IfErr result (FaultCounts (D.disk.faults disk.old) (D.disk.faults disk.new)) }
    ensures calm { OnOk result (D.disk.faults disk.new ≡ D.disk.faults disk.old) }
{
    disk.sync()?;
    read_log(alloc, disk)
}

impl<D: Disk> Journal<D> {
    /// The log on a disk, with its records. It is synced before it is read.
    ///
    /// A header of either kind is read; whether it is the right one is for the caller to say.
    pub fn open(alloc: Global, mut disk: D) -> Result<Opened<D>, (D, OpenFault)>
        ensures log { D.disk.tells disk → IfOk result (λ o. IsLog o.header (places o.records) (D.disk.seen disk)) }
        ensures damage { D.disk.tells disk → IfErr result (λ e. IsDamage (damage (D.disk.seen disk)) e.1) }
        ensures few { IfOk result (λ o. AreFew o.records) }
        ensures of_log { IfOk result (λ o. All IsOfLog o.records) }
        ensures head { D.disk.tells disk → IfOk result (λ o. head_of o.journal ≡ take 64 (D.disk.seen disk)) }
        // The keeper holds the records, and nothing is in doubt.
        ensures tells { D.disk.tells disk → IfOk result (λ o. (journal_of D.disk).tells o.journal) }
        ensures list { D.disk.tells disk → IfOk result (λ o. (journal_of D.disk).list o.journal ≡ payloads o.records) }
        ensures doubts { IfOk result (λ o. (x : List ℕ) → (journal_of D.disk).doubts o.journal x → ⊥) }
        ensures quiet { IfOk result (λ o. (journal_of D.disk).most_calls o.journal ≡ 4) }
        ensures used { IfOk result (λ o. (journal_of D.disk).used o.journal ≡ 65 + length (log_records (payloads o.records))) }
        // Nothing has changed, and a crash leaves nothing that it could not leave before.
        ensures still { D.disk.tells disk → IfOk result (λ o. Still D.disk disk (disk_of o.journal)) }
        ensures still_err { D.disk.tells disk → IfErr result (λ e. Still D.disk disk e.0) }
        ensures calm { IfOk result (λ o. D.disk.faults (disk_of o.journal) ≡ D.disk.faults disk) }
        ensures fault { IfErr result (λ e. FaultCounts (D.disk.faults disk) (D.disk.faults e.0) e.1) }
    {
        match load(alloc, &mut disk) {
            Ok(log) => Ok(Opened {
                journal: Journal::at_gate(disk, log.head, log.gate),
                header: log.header,
                records: Records::of(log.records),
            }),
            Err(fault) => Err((disk, fault)),
        }
    }
}
