//! A file is opened as the log of a receiver.
ghost use Rattle.std.specs.Prelude.{◌≡◌, IfOk, IfErr};
ghost use Rattle.news_journal.specs.Journal.{journal_of};
ghost use Rattle.news_journal.specs.Stands.{disk_of};
ghost use Rattle.feed_receiver.specs.Holds.{OpensTo};
ghost use Rattle.receiver_files.specs.Log.{AreBad};
ghost use Rattle.receiver_files.specs.Opening.{IsRefused, IsOpenReceiver};

use crate::Refusal;
use crate::kinds::{LogKind, log_kind};
use feed_receiver::Receiver;
use news_io::{Disk, Keeper, Record};
use news_journal::{Header, Journal, Opened};
use news_types::Name;
use std::alloc::Global;

/// The receiver of these records, which are the journal's.
fn receiver_of<D: Disk>(
    alloc: Global,
    journal: Journal<D>,
    name: Name,
    records: &[Record],
) -> Result<Receiver<Journal<D>>, (D, Refusal)>
    ensures opened { IfOk result (λ r. OpensTo (journal_of D.disk) journal name records.now r) }
    ensures refused { IfErr result (λ e. (e.0 ≡ disk_of journal) × AreBad name records.now e.1) }
{
    match Receiver::open(alloc, journal, name, records) {
        Ok(receiver) => Ok(receiver),
        Err((journal, fault)) => Err((journal.into_disk(), Refusal::from(fault))),
    }
}

/// The receiver of this name that a file opens to, or why there is none. An empty file is made its log. The length is asked
/// first, and then the header alone: another's log is the wrong store, whatever its records are.
pub fn open_receiver<D: Disk>(
    alloc: Global,
    mut log: D,
    name: Name,
) -> Result<Receiver<Journal<D>>, (D, Refusal)>
    ensures opened { IfOk result (IsOpenReceiver D.disk name log) }
    ensures refused { IfErr result (λ e. IsRefused D.disk name log e.0 e.1) }
{
    match log_kind(&mut log, name.as_bytes()) {
        Ok(LogKind::Empty) => match Journal::create(log, &Header::Receiver { name }) {
            Ok(journal) => receiver_of(alloc, journal, name, &[]),
            Err((log, fault)) => Err((log, Refusal::from(fault))),
        },
        Ok(LogKind::Other) => Err((log, Refusal::WrongStore)),
        Ok(LogKind::Own) => match Journal::open(alloc, log) {
            Ok(
                Opened {
                    journal,
                    header: _,
                    records,
                },
            ) => receiver_of(alloc, journal, name, records.as_slice()),
            Err((log, fault)) => Err((log, Refusal::from(fault))),
        },
        Err(failed) => Err((log, Refusal::from(failed))),
    }
}
