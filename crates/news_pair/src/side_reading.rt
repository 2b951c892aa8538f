//! Reading a side.
ghost use Rattle.std.specs.Prelude.{◌≡◌, ◌≤◌, ◌<◌, ◌+◌, ◌^◌, length, OnOk, IfOk, IfErr, IfSome};
ghost use Rattle.news_journal.specs.Opened.{Still, FaultCounts as LogFaultCounts, IsDamage, AreFew, payloads};
ghost use Rattle.news_journal.specs.Log.{records as log_records};
ghost use Rattle.news_pair.specs.Damage.{is_bare, beside, difference, side_damage, on_side, Judged};
ghost use Rattle.news_pair.specs.Faults.{side_fault_of, FaultCounts};
ghost use Rattle.news_pair.specs.Opened.{SideAs, places_of};

use crate::PairFault;
use crate::side_making::side_header;
use news_io::{Disk, Record};
use news_journal::{OpenFault, Window, read_records};
use std::alloc::Global;
use uuid::Uuid;

/// The first place where these bytes are other than those that are wanted, or too few, with the byte there.
fn difference(wanted: &[u8], bytes: &[u8]) -> Option<(u64, Option<u8>)>
    ensures { result ≡ difference 0 wanted.now bytes.now }
{
    for place in 0..wanted.len() {
        if place >= bytes.len() {
            return Some((place as u64, None));
        }
        if bytes[place] != wanted[place] {
            return Some((place as u64, Some(bytes[place])));
        }
    }
    None
}

/// Whether a file that begins with these bytes, at most 65, stands for no segment.
fn is_bare(bytes: &[u8]) -> bool
    ensures { result ≡ is_bare bytes.now }
{
    bytes.len() < 65 || bytes[0] != b'N'
}

/// A fault of the side.
fn on_side(fault: OpenFault) -> PairFault
    ensures { result ≡ side_fault_of fault }
{
    match fault {
        OpenFault::DiskFault => PairFault::DiskFault,
        OpenFault::Damaged { at, found } => PairFault::DamagedSide { at, found },
        OpenFault::Memory => PairFault::Memory,
    }
}

/// The segments of a side.
#[derive(Drop)]
pub struct SideLog {
    /// The place of the closed gate.
    pub gate: u64,
    pub records: Vec<Record>,
}

/// Reads a side, or none where the file stands for no segment.
pub fn read_side<D: Disk>(
    alloc: Global,
    disk: &mut D,
    store: &Uuid,
) -> Result<Option<SideLog>, PairFault>
    ensures judged { D.disk.tells disk.old → Judged (on_side (side_damage store.now (D.disk.seen disk.old))) result }
    ensures reads { D.disk.tells disk.old → IfOk result (SideAs store.now (D.disk.seen disk.old)) }
    ensures records { D.disk.tells disk.old → IfOk result (λ o. beside (D.disk.seen disk.old) ≡ places_of o) }
    ensures small { IfOk result (λ o. IfSome o (λ found. found.gate < 2 ^ 30)) }
    ensures some { IfOk result (λ o. IfSome o (λ found. 64 ≤ found.gate)) }
    ensures place { IfOk result (λ o. IfSome o (λ found. found.gate ≡ 64 + length (log_records (payloads found.records.items)))) }
    ensures few { IfOk result (λ o. IfSome o (λ found. AreFew found.records.items)) }
    ensures still { Still D.disk disk.old disk.new }
    ensures fault { IfErr result (FaultCounts (D.disk.faults disk.old) (D.disk.faults disk.new)) }
    ensures calm { OnOk result (D.disk.faults disk.new ≡ D.disk.faults disk.old) }
{
    match read_segments(alloc, disk, store) {
        Ok(found) => Ok(found),
        Err(fault) => Err(on_side(fault)),
    }
}

fn read_segments<D: Disk>(
    alloc: Global,
    disk: &mut D,
    store: &Uuid,
) -> Result<Option<SideLog>, OpenFault>
    ensures whole { D.disk.tells disk.old → OnOk result (side_damage store.now (D.disk.seen disk.old) ≡ None) }
    ensures damage { D.disk.tells disk.old → IfErr result (IsDamage (side_damage store.now (D.disk.seen disk.old))) }
    ensures reads { D.disk.tells disk.old → IfOk result (SideAs store.now (D.disk.seen disk.old)) }
    ensures records { D.disk.tells disk.old → IfOk result (λ o. beside (D.disk.seen disk.old) ≡ places_of o) }
    ensures small { IfOk result (λ o. IfSome o (λ found. found.gate < 2 ^ 30)) }
    ensures some { IfOk result (λ o. IfSome o (λ found. 64 ≤ found.gate)) }
    ensures place { IfOk result (λ o. IfSome o (λ found. found.gate ≡ 64 + length (log_records (payloads found.records.items)))) }
    ensures few { IfOk result (λ o. IfSome o (λ found. AreFew found.records.items)) }
    ensures still { Still D.disk disk.old disk.new }
    ensures fault { IfErr result (LogFaultCounts (D.disk.faults disk.old) (D.disk.faults disk.new)) }
    ensures calm { OnOk result (D.disk.faults disk.new ≡ D.disk.faults disk.old) }
{
    let mut window = Window::new(alloc);
    window.cover(disk, 0, 65)?;
    let bytes = window.part(0, 65);
    if is_bare(bytes) {
        return Ok(None);
    }
    if let Some((at, found)) = difference(&side_header(store), bytes) {
        return Err(OpenFault::Damaged { at, found });
    }
    let (gate, records) = read_records(alloc, disk, &mut window)?;
    Ok(Some(SideLog { gate, records }))
}
