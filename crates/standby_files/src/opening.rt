//! Two files are opened as the store of a standby.
ghost use Rattle.std.specs.Prelude.{◌≡◌, ◌+◌, IfOk, IfErr};
ghost use Rattle.news_types.specs.History.{History};
ghost use Rattle.news_io.specs.Faults.{Counts};
ghost use Rattle.news_journal.specs.Opened.{Still, AreFew};
ghost use Rattle.news_pair.specs.Keeper.{pair_of};
ghost use Rattle.news_pair.specs.Stands.{log_disk, side_disk};
ghost use Rattle.room_standby.specs.Holds.{AreOf, OpensTo};
ghost use Rattle.store_files.specs.declared.trouble.Trouble.TheVariants.{Memory};
ghost use Rattle.standby_files.specs.Listing.{IsListed};
ghost use Rattle.standby_files.specs.Kinds.{BesideEmpty, ByHeader, IsKind, OtherHeader, trouble_of_standby, IsOwnStandby, IsOwnRefused};
ghost use Rattle.standby_files.specs.Opening.{IsRefused, IsOpenStandby};

use crate::listing::{Listed, open_list};
use news_io::{Disk, Failed, Keeper, Record};
use news_journal::{Header, Journal};
use news_pair::Pair;
use room_standby::{Standby, StandbyFault};
use std::alloc::Global;
use store_files::{Trouble, is_empty};
use uuid::Uuid;

/// What the files are, as far as the length and the header of the log and the length of its side tell.
#[derive(Clone, Copy)]
pub(crate) enum Kind {
    /// Nobody's yet: both are empty.
    Empty,
    /// Another store's, or a side without its log.
    Other,
    /// This store's, or no newsroom's.
    Own,
}

/// Whether a header is that of another store's log.
fn is_other(header: Header, store: &Uuid) -> bool
    ensures { OtherHeader header store.now result }
{
    match header {
        Header::Room { store: owner } => {
            owner.as_bytes().as_slice() != store.as_bytes().as_slice()
        }
        Header::Receiver { .. } => false,
    }
}

/// Whose files they are beside an empty log.
fn empty_kind<D: Disk>(side: &mut D) -> Result<Kind, Failed>
    ensures kind { D.disk.tells side.old → IfOk result (BesideEmpty (D.disk.seen side.old)) }
    ensures still { Still D.disk side.old side.new }
    ensures count { Counts (D.disk.faults side.old) (D.disk.faults side.new) result }
{
    if is_empty(side)? {
        Ok(Kind::Empty)
    } else {
        Ok(Kind::Other)
    }
}

/// Whose files they are, by the header of a log that is not empty.
fn header_kind<D: Disk>(log: &mut D, store: &Uuid) -> Result<Kind, Failed>
    ensures kind { D.disk.tells log.old → IfOk result (ByHeader store.now (D.disk.seen log.old)) }
    ensures still { Still D.disk log.old log.new }
    ensures count { Counts (D.disk.faults log.old) (D.disk.faults log.new) result }
{
    let Some(header) = Header::read_from(log)? else {
        return Ok(Kind::Own);
    };
    if is_other(header, store) {
        return Ok(Kind::Other);
    }
    Ok(Kind::Own)
}

/// Whose files they are.
fn kind_of<D: Disk>(log: &mut D, side: &mut D, store: &Uuid) -> Result<Kind, Failed>
    ensures kind { D.disk.tells log.old → D.disk.tells side.old → IfOk result (IsKind store.now (D.disk.seen log.old) (D.disk.seen side.old)) }
    ensures still { Still D.disk log.old log.new }
    ensures still_side { Still D.disk side.old side.new }
    ensures count { Counts (D.disk.faults log.old + D.disk.faults side.old) (D.disk.faults log.new + D.disk.faults side.new) result }
{
    match is_empty(log) {
        Ok(true) => empty_kind(side),
        Ok(false) => header_kind(log, store),
        Err(failed) => Err(failed),
    }
}

/// Why records are none that a standby is opened from.
fn trouble_of(fault: StandbyFault) -> Trouble
    ensures { result ≡ trouble_of_standby fault }
{
    match fault {
        StandbyFault::Damaged { at, found } => Trouble::Damaged { at, found },
        StandbyFault::Memory => Trouble::Memory,
    }
}

/// The standby of these records, which are the pair's. Each of them is of an entry, so it fails only for want of memory.
fn standby_of<D: Disk>(
    alloc: Global,
    pair: Pair<D>,
    records: &[Record],
) -> Result<Standby<Pair<D>>, (D, D, Trouble)>
    requires few { AreFew records.now }
    requires entries { (h : History) × AreOf records.now h }
    ensures opened { IfOk result (OpensTo (pair_of D.disk) pair records.now) }
    ensures refused { IfErr result (λ e. (e.0 ≡ log_disk pair) × (e.1 ≡ side_disk pair) × (e.2 ≡ Memory)) }
{
    match Standby::open(alloc, pair, records) {
        Ok(standby) => Ok(standby),
        Err((pair, fault)) => {
            let (log, side) = pair.into_disks();
            Err((log, side, trouble_of(fault)))
        }
    }
}

/// The standby of this list, where it is the store's.
fn own_standby<D: Disk>(
    alloc: Global,
    listed: Listed<D>,
    store: Uuid,
) -> Result<Standby<Pair<D>>, (D, D, Trouble)>
    requires few { AreFew listed.records }
    requires entries { (h : History) × AreOf listed.records h }
    ensures opened { (log side : D) → IsListed D.disk log side listed → IfOk result (IsOwnStandby D.disk store log side) }
    ensures refused { (log side : D) → IsListed D.disk log side listed → IfErr result (λ e. IsOwnRefused D.disk store log side e.0 e.1 e.2) }
{
    let Listed {
        pair,
        store: owner,
        records,
    } = listed;
    if owner != store {
        let (log, side) = pair.into_disks();
        return Err((log, side, Trouble::WrongStore));
    }
    standby_of(alloc, pair, records.as_slice())
}

/// The standby of this store that files open to which are a newsroom's.
fn open_own<D: Disk>(
    alloc: Global,
    log: D,
    side: D,
    store: Uuid,
) -> Result<Standby<Pair<D>>, (D, D, Trouble)>
    ensures opened { IfOk result (IsOwnStandby D.disk store log side) }
    ensures refused { IfErr result (λ e. IsOwnRefused D.disk store log side e.0 e.1 e.2) }
{
    match open_list(alloc, log, side) {
        Ok(listed) => own_standby(alloc, listed, store),
        Err(refused) => Err(refused),
    }
}

/// The standby of this store that two files open to, or why there is none. Two empty files are made its store. The lengths
/// are asked first, and then the log's header alone: the log of another store is the wrong store, whatever its records are.
pub fn open_standby<D: Disk>(
    alloc: Global,
    mut log: D,
    mut side: D,
    store: Uuid,
) -> Result<Standby<Pair<D>>, (D, D, Trouble)>
    ensures opened { IfOk result (IsOpenStandby D.disk store log side) }
    ensures refused { IfErr result (λ e. IsRefused D.disk store log side e.0 e.1 e.2) }
{
    match kind_of(&mut log, &mut side, &store) {
        Ok(Kind::Empty) => match Journal::create(log, &Header::Room { store }) {
            Ok(journal) => open_own(alloc, journal.into_disk(), side, store),
            Err((log, fault)) => Err((log, side, Trouble::from(fault))),
        },
        Ok(Kind::Other) => Err((log, side, Trouble::WrongStore)),
        Ok(Kind::Own) => open_own(alloc, log, side, store),
        Err(failed) => Err((log, side, Trouble::from(failed))),
    }
}
