//! Where a log and its side meet.
ghost use Rattle.std.specs.Prelude.{◌≡◌, ◌<◌, ◌≤◌, ◌+◌, ◌^◌, ◌++◌, length, drop, Some, OnOk, IfOk, IfErr};
ghost use Rattle.news_journal.specs.Log.{records as log_records};
ghost use Rattle.news_journal.specs.Opened.{payloads, places};
ghost use Rattle.news_pair.specs.Damage.{meeting_damage, Judged};
ghost use Rattle.news_pair.specs.Faults.{IsDiskFault};
ghost use Rattle.news_pair.specs.Opened.{MeetsOrEmpty};

use crate::PairFault;
use news_io::Record;
use news_types::Memory;

/// Asks whether no entry is missing between a side and a log, and whether those that both have are the same.
/// `byte` is the first of the log's base.
pub fn meet(base: u64, byte: u8, side: &[Record], log: &[Record]) -> Result<(), PairFault>
    requires { base < 2 ^ 48 }
    ensures judged { Judged (meeting_damage base (Some byte) (payloads side.now) (places log.now)) result }
    ensures meets { OnOk result (MeetsOrEmpty base (payloads side.now) (payloads log.now)) }
    ensures fault { IfErr result (λ e. IsDiskFault e → ⊥) }
{
    if log.is_empty() {
        return Ok(());
    }
    let base = base as usize;
    if base > side.len() || side.len() - base > log.len() {
        return Err(PairFault::Damaged {
            at: 10,
            found: Some(byte),
        });
    }
    for i in base..side.len() {
        if side[i].bytes != log[i - base].bytes {
            return Err(PairFault::Damaged {
                at: log[i - base].at,
                found: Some(1),
            });
        }
    }
    Ok(())
}

/// The records of both: those of the side, and those of the log behind the first so many.
pub fn joined(mut side: Vec<Record>, log: Vec<Record>, skip: usize) -> Result<Vec<Record>, Memory>
    ensures { IfOk result (λ all. all.items ≡ side.items ++ drop skip log.items) }
{
    for record in log.into_iter().skip(skip) {
        side.push(record)?;
    }
    Ok(side)
}

/// The bytes that these records take in one log.
pub fn size_of(records: &[Record]) -> Result<u64, Memory>
    ensures size { IfOk result (λ size. size ≡ 65 + length (log_records (payloads records.now))) }
    ensures small { IfOk result (λ size. size < 2 ^ 62) }
{
    let mut size: u64 = 65;
    for record in records {
        size += 5 + record.bytes.as_slice().len() as u64;
        // So many bytes are in no memory.
        if size >= 1 << 60 {
            return Err(Memory);
        }
    }
    Ok(size)
}
