//! A standby is opened from the records of its keeper.

ghost use Rattle.std.specs.Prelude.{◌≡◌, ◌<◌, length, All, IfOk, IfErr};
ghost use Rattle.news_types.specs.History.{History};
ghost use Rattle.room_standby.specs.Holds.{AreOf, IsPlace, OpensTo, IsFault, GivesBack, IsEntryRecord};

use crate::standby::{Standby, StandbyFault};
use entry_codec::{CodecFault, moment_of};
use news_io::{Keeper, Record};
use news_types::{Bytes, Memory};
use std::alloc::Global;

/// An equal record.
fn copy_of(alloc: Global, here: &Record) -> Result<Record, Memory>
    ensures { IfOk result (λ copied. copied ≡ here.now) }
{
    Ok(Record {
        at: here.at,
        side: here.side,
        bytes: Bytes::copy_of(alloc, here.bytes.as_slice())?,
    })
}

/// Whether the payload of a record is an entry.
fn check(alloc: Global, here: &Record) -> Result<(), StandbyFault>
    ensures { IsEntryRecord here.now result }
{
    match moment_of(alloc, here.bytes.as_slice()) {
        Ok(_) => Ok(()),
        Err(CodecFault::At { .. }) => Err(StandbyFault::Damaged {
            at: here.at,
            found: Some(1),
        }),
        Err(CodecFault::Memory) => Err(StandbyFault::Memory),
    }
}

/// Copies of these records, each of which is of an entry.
fn copies(alloc: Global, records: &[Record]) -> Result<Vec<Record>, StandbyFault>
    ensures same { IfOk result (λ copied. copied.items ≡ records.now) }
    ensures list { IfOk result (λ copied. (h : History) × AreOf records.now h) }
    ensures fault { IfErr result (IsFault records.now) }
{
    let mut copied = Vec::with_capacity(alloc, records.len())?;
    for here in records {
        check(alloc, here)?;
        copied.push(copy_of(alloc, here)?)?;
    }
    Ok(copied)
}

impl<K: Keeper> Standby<K> {
    /// The standby that has these records.
    ///
    /// The keeper is the one whose log has them. Where it tells its list, that is their payloads in order, and each
    /// payload in doubt is that of an entry.
    pub fn open(
        alloc: Global,
        keeper: K,
        records: &[Record],
    ) -> Result<Standby<K>, (K, StandbyFault)>
        requires few { length records.now < 1073741824 }
        requires places { All IsPlace records.now }
        ensures opened { IfOk result (OpensTo K.keeper keeper records.now) }
        ensures refused { IfErr result (GivesBack keeper records.now) }
    {
        match copies(alloc, records) {
            Ok(records) => Ok(Standby {
                alloc,
                keeper,
                records,
            }),
            Err(fault) => Err((keeper, fault)),
        }
    }
}
