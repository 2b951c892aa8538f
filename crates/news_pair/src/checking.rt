//! Asking whether the records of a log are entries.
ghost use Rattle.std.specs.Prelude.{◌≡◌, ◌<◌, ◌≤◌, ◌+◌, ◌^◌, ℕ, length, slice_get, None, Some, Err, OnOk, IfErr};
ghost use Rattle.entry_codec.specs.declared.fault.CodecFault.TheVariants.{At};
ghost use Rattle.news_journal.specs.Opened.{places, AreFew};
ghost use Rattle.news_pair.specs.Damage.{first_of, no_entry, on_log, Judged};
ghost use Rattle.news_pair.specs.Faults.{IsDiskFault};

use crate::PairFault;
use entry_codec::{CodecFault, moment_of};
use news_io::Record;
use std::alloc::Global;

/// Asks whether these bytes are an entry.
fn check_payload(alloc: Global, payload: &[u8]) -> Result<(), CodecFault>
    ensures whole { OnOk result ((gate : ℕ) → no_entry (gate, payload.now) ≡ None) }
    ensures fault { (at : ℕ) → result ≡ Err (At at) → (at ≤ length payload.now) × ((gate : ℕ) → no_entry (gate, payload.now) ≡ Some (gate + 5 + at, slice_get payload.now at)) }
{
    match moment_of(alloc, payload) {
        Ok(_) => Ok(()),
        Err(fault) => Err(fault),
    }
}

/// Asks whether a record of the log is an entry.
fn check_entry(alloc: Global, kept: &Record) -> Result<(), PairFault>
    requires { kept.now.at < 2 ^ 30 }
    ensures judged { Judged (on_log (no_entry (kept.now.at, kept.now.bytes))) result }
    ensures fault { IfErr result (λ e. IsDiskFault e → ⊥) }
{
    let payload = kept.bytes.as_slice();
    match check_payload(alloc, payload) {
        Ok(()) => Ok(()),
        Err(CodecFault::At { at }) => Err(PairFault::Damaged {
            at: kept.at + 5 + at,
            found: payload.get(at as usize).copied(),
        }),
        Err(CodecFault::Memory) => Err(PairFault::Memory),
    }
}

/// Asks whether each of these records of the log is an entry.
pub fn check_entries(alloc: Global, records: &[Record]) -> Result<(), PairFault>
    requires { AreFew records.now }
    ensures judged { Judged (on_log (first_of no_entry (places records.now))) result }
    ensures fault { IfErr result (λ e. IsDiskFault e → ⊥) }
{
    for kept in records {
        check_entry(alloc, kept)?;
    }
    Ok(())
}
