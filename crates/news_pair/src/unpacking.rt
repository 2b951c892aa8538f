//! The entries of a side.
ghost use Rattle.std.specs.Prelude.{◌≡◌, ◌<◌, ◌≤◌, ◌*◌, ◌^◌, ◌++◌, [], None, Some, All, length, map, OnOk, IfOk, IfErr};
ghost use Rattle.news_journal.specs.Log.{records as log_records};
ghost use Rattle.std.specs.Option.{option_or};
ghost use Rattle.news_journal.specs.Opened.{payloads, places, AreFew};
ghost use Rattle.news_pair.specs.Pair.{AreSegments, packed_by};
ghost use Rattle.news_pair.specs.Placed.{packed_record, side_records};
ghost use Rattle.news_pair.specs.Segments.{segment_in};
ghost use Rattle.news_pair.specs.Damage.{first_of, no_segment, misplaced, on_side, Judged};
ghost use Rattle.news_pair.specs.Unpacking.{earlier_or};
ghost use Rattle.news_pair.specs.Faults.{IsDiskFault};

use crate::PairFault;
use crate::segments::{NoSegment, read_segment};
use entry_segments::SegmentPayloads;
use news_io::Record;
use news_types::Bytes;
use std::alloc::{AllocError, Global};

/// Adds the entries of the segment behind this gate.
fn add_entries(entries: &mut Vec<Record>, at: u64, segment: Vec<Bytes>) -> Result<(), AllocError>
    ensures items { OnOk result (payloads entries.new.items ≡ payloads entries.old.items ++ segment.items) }
    ensures placed { OnOk result (entries.new.items ≡ entries.old.items ++ map (packed_record at) segment.items) }
    ensures at { at < 2 ^ 30 → All (λ r. r.at < 2 ^ 30) entries.old.items → OnOk result (All (λ r. r.at < 2 ^ 30) entries.new.items) }
{
    for bytes in segment {
        entries.push(Record {
            at,
            side: true,
            bytes,
        })?;
    }
    Ok(())
}

/// The gate of the first segment with another number than that of the entries before it.
fn first_misplaced(earlier: Option<u64>, gate: u64, base: u64, count: u64) -> Option<u64>
    ensures { result ≡ earlier_or earlier gate base count }
{
    if earlier.is_some() {
        return earlier;
    }
    if base == count { None } else { Some(gate) }
}

/// The segment of a record of the side.
fn segment_of(alloc: Global, kept: &Record) -> Result<SegmentPayloads, PairFault>
    requires { kept.now.at < 2 ^ 30 }
    ensures judged { Judged (on_side (no_segment (kept.now.at, kept.now.bytes))) result }
    ensures found { IfOk result (λ s. segment_in kept.now.bytes ≡ Some (s.base, s.payloads.items)) }
    ensures few { IfOk result (λ s. 2 * length s.payloads.items ≤ length kept.now.bytes) }
    ensures fault { IfErr result (λ e. IsDiskFault e → ⊥) }
{
    let payload = kept.bytes.as_slice();
    match read_segment(alloc, payload) {
        Ok(segment) => Ok(segment),
        Err(NoSegment::At { at }) => Err(PairFault::DamagedSide {
            at: kept.at + 5 + at,
            found: payload.get(at as usize).copied(),
        }),
        Err(NoSegment::Memory) => Err(PairFault::Memory),
    }
}

/// The entries of these segments. Each has to be a segment, with the number of the entries before it.
pub fn unpack_all(alloc: Global, segments: &[Record]) -> Result<Vec<Record>, PairFault>
    requires { AreFew segments.now }
    ensures judged { Judged (option_or (on_side (first_of no_segment (places segments.now))) (on_side (misplaced 0 (places segments.now)))) result }
    ensures are { OnOk result (AreSegments 0 (payloads segments.now)) }
    ensures entries { IfOk result (λ entries. payloads entries.items ≡ packed_by (payloads segments.now)) }
    ensures placed { IfOk result (λ entries. entries.items ≡ side_records (places segments.now)) }
    ensures few { IfOk result (λ entries. 2 * length entries.items ≤ length (log_records (payloads segments.now))) }
    ensures at { IfOk result (λ entries. All (λ r. r.at < 2 ^ 30) entries.items) }
    ensures fault { IfErr result (λ e. IsDiskFault e → ⊥) }
{
    let mut entries = Vec::new(alloc);
    let mut misplaced = None;
    for kept in segments {
        let segment = segment_of(alloc, kept)?;
        misplaced = first_misplaced(misplaced, kept.at, segment.base, entries.len() as u64);
        add_entries(&mut entries, kept.at, segment.payloads)?;
    }
    match misplaced {
        None => Ok(entries),
        Some(at) => Err(PairFault::DamagedSide { at, found: Some(1) }),
    }
}
