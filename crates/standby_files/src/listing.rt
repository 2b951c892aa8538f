//! The records of the list that a log and its side open to.
ghost use Rattle.std.specs.Prelude.{◌≡◌, IfOk, IfErr, OnOk};
ghost use Rattle.news_types.specs.History.{History};
ghost use Rattle.news_pair.specs.Stands.{log_disk, side_disk};
ghost use Rattle.room_standby.specs.Holds.{AreOf, IsOfEntry};
ghost use Rattle.store_files.specs.Store.{IsRefused, IsOpenRoom};
ghost use Rattle.standby_files.specs.Listing.{RecordCause, RecordsCause, IsListOf, IsNoList, IsListed};

use entry_codec::{CodecFault, moment_of};
use news_io::{Disk, Keeper, Record};
use news_journal::{Header, Records};
use news_pair::{OpenedPair, Pair};
use news_room::Room;
use std::alloc::Global;
use store_files::{Trouble, open_room};
use uuid::Uuid;

/// What two files were opened to, record by record.
#[derive(Drop)]
pub(crate) struct Listed<D> {
    /// The keeper of the records.
    pub(crate) pair: Pair<D>,
    /// Whose list it is.
    pub(crate) store: Uuid,
    /// The records of the list, oldest first, each of which is of an entry.
    pub(crate) records: Records,
}

/// Asks whether the payload of a record is an entry. Damage is told of the file in which the record lies.
fn check_record(alloc: Global, here: &Record) -> Result<(), Trouble>
    ensures entry { OnOk result (IsOfEntry here.now.bytes) }
    ensures none { IfErr result (RecordCause here.now) }
{
    match moment_of(alloc, here.bytes.as_slice()) {
        Ok(_) => Ok(()),
        Err(CodecFault::Memory) => Err(Trouble::Memory),
        Err(CodecFault::At { .. }) => {
            let at = here.at;
            let found = Some(1);
            if here.side {
                Err(Trouble::DamagedSide { at, found })
            } else {
                Err(Trouble::Damaged { at, found })
            }
        }
    }
}

/// Asks whether each of these records is of an entry.
fn check_records(alloc: Global, records: &[Record]) -> Result<(), Trouble>
    ensures list { OnOk result ((h : History) × AreOf records.now h) }
    ensures none { IfErr result (RecordsCause records.now) }
{
    for here in records {
        check_record(alloc, here)?;
    }
    Ok(())
}

/// What a pair was opened to, record by record.
fn read_list<D: Disk>(alloc: Global, opened: OpenedPair<D>) -> Result<Listed<D>, (D, D, Trouble)>
    ensures list { IfOk result (IsListOf opened) }
    ensures none { IfErr result (λ e. (e.0 ≡ log_disk opened.pair) × (e.1 ≡ side_disk opened.pair) × IsNoList opened.header opened.records e.2) }
{
    let OpenedPair {
        pair,
        header,
        records,
    } = opened;
    let Header::Room { store } = header else {
        let (log, side) = pair.into_disks();
        return Err((log, side, Trouble::WrongStore));
    };
    match check_records(alloc, records.as_slice()) {
        Ok(()) => Ok(Listed {
            pair,
            store,
            records,
        }),
        Err(trouble) => {
            let (log, side) = pair.into_disks();
            Err((log, side, trouble))
        }
    }
}

/// The records of a room's list, and their keeper: they are read once more.
fn read_again<D: Disk>(alloc: Global, room: Room<Pair<D>>) -> Result<Listed<D>, (D, D, Trouble)>
    ensures listed { (log side : D) → IsOpenRoom D.disk log side room → IfOk result (IsListed D.disk log side) }
    ensures refused { (log side : D) → IsOpenRoom D.disk log side room → IfErr result (λ e. IsRefused D.disk log side e.0 e.1 e.2) }
{
    let (log, side) = room.into_keeper().into_disks();
    match Pair::open(alloc, log, side) {
        Ok(opened) => read_list(alloc, opened),
        Err((log, side, fault)) => Err((log, side, Trouble::from(fault))),
    }
}

/// The records of the list that two files open to, and their keeper, or why there are none.
///
/// The files are opened as a newsroom's first, as every command opens them, and so they are refused for the same causes; then
/// their records are read once more.
pub(crate) fn open_list<D: Disk>(
    alloc: Global,
    log: D,
    side: D,
) -> Result<Listed<D>, (D, D, Trouble)>
    ensures listed { IfOk result (IsListed D.disk log side) }
    ensures refused { IfErr result (λ e. IsRefused D.disk log side e.0 e.1 e.2) }
{
    match open_room(alloc, log, side) {
        Ok(room) => read_again(alloc, room),
        Err(refused) => Err(refused),
    }
}
