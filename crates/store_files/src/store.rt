//! A log and its side are opened as a room.
ghost use Rattle.std.specs.Prelude.{◌≡◌, ◌+◌, IfOk, IfErr, OnOk};
ghost use Rattle.news_journal.specs.Opened.{Still, AreFew};
ghost use Rattle.news_pair.specs.Damage.{pair_damage};
ghost use Rattle.news_pair.specs.Stands.{log_disk, side_disk};
ghost use Rattle.store_files.specs.Kinds.{IsOther, IsOtherSide};
ghost use Rattle.store_files.specs.Store.{IsRefused, IsOpenRoom, IsOpenListed, IsListedOf, IsNoRoom, Reopens, Cause, SideCause, TroubleCounts};

use crate::kinds::{LogKind, is_other_side, log_kind};
use crate::trouble::Trouble;
use news_io::{Disk, Keeper};
use news_journal::{Header, Records};
use news_pair::{OpenedPair, Pair};
use news_room::Room;
use std::alloc::Global;
use uuid::Uuid;

/// The room of a log and its side, or why there is none. The headers are asked first: a file of another kind is the wrong
/// store, whatever its records are.
pub fn open_room<D: Disk>(alloc: Global, log: D, side: D) -> Result<Room<Pair<D>>, (D, D, Trouble)>
    ensures opened { IfOk result (IsOpenRoom D.disk log side) }
    ensures refused { IfErr result (λ e. IsRefused D.disk log side e.0 e.1 e.2) }
{
    match open_listed(alloc, log, side) {
        Ok((room, records)) => {
            drop(records);
            Ok(room)
        }
        Err(refused) => Err(refused),
    }
}

/// The room of a log and its side, as `open_room` gives it, and the records of its list, in order; or why there is none.
pub fn open_listed<D: Disk>(
    alloc: Global,
    mut log: D,
    mut side: D,
) -> Result<(Room<Pair<D>>, Records), (D, D, Trouble)>
    ensures opened { IfOk result (λ listed. IsOpenListed D.disk log side listed.0 listed.1) }
    ensures refused { IfErr result (λ e. IsRefused D.disk log side e.0 e.1 e.2) }
{
    match refuse_other_kinds(alloc, &mut log, &mut side) {
        Ok(()) => open_pair(alloc, log, side),
        Err(trouble) => Err((log, side, trouble)),
    }
}

/// Refuses a side that is not that of a store, by its header alone.
fn refuse_other_side<D: Disk>(alloc: Global, side: &mut D, store: &Uuid) -> Result<(), Trouble>
    ensures cause { D.disk.tells side.old → IfErr result (SideCause store.now (D.disk.seen side.old)) }
    ensures own { D.disk.tells side.old → OnOk result (IsOtherSide store.now (D.disk.seen side.old) → ⊥) }
    ensures count { IfErr result (TroubleCounts (D.disk.faults side.old) (D.disk.faults side.new)) }
    ensures calm { OnOk result (D.disk.faults side.new ≡ D.disk.faults side.old) }
    ensures still { Still D.disk side.old side.new }
{
    if is_other_side(alloc, side, store)? {
        return Err(Trouble::WrongStore);
    }
    Ok(())
}

/// Refuses a log and its side that are not those of a newsroom, by the log's length and their headers alone.
fn refuse_other_kinds<D: Disk>(alloc: Global, log: &mut D, side: &mut D) -> Result<(), Trouble>
    ensures refused { IfErr result (IsRefused D.disk log.old side.old log.new side.new) }
    ensures own { D.disk.tells log.old → D.disk.tells side.old → OnOk result (IsOther (D.disk.seen log.old) (D.disk.seen side.old) → ⊥) }
    ensures calm { OnOk result (D.disk.faults log.new + D.disk.faults side.new ≡ D.disk.faults log.old + D.disk.faults side.old) }
    ensures still { Still D.disk log.old log.new }
    ensures still_side { Still D.disk side.old side.new }
{
    match log_kind(log)? {
        LogKind::Other => Err(Trouble::WrongStore),
        LogKind::Room(store) => refuse_other_side(alloc, side, &store),
        LogKind::Unknown => Ok(()),
    }
}

/// The room of files that may be a newsroom's, or why there is none: only then is damage told as it stands.
fn open_pair<D: Disk>(
    alloc: Global,
    log: D,
    side: D,
) -> Result<(Room<Pair<D>>, Records), (D, D, Trouble)>
    ensures opened { IfOk result (λ listed. IsOpenListed D.disk log side listed.0 listed.1) }
    ensures cause { D.disk.tells log → D.disk.tells side → (IsOther (D.disk.seen log) (D.disk.seen side) → ⊥) → IfErr result (λ e. Cause (D.disk.seen log) (D.disk.seen side) e.2) }
    ensures count { IfErr result (λ e. TroubleCounts (D.disk.faults log + D.disk.faults side) (D.disk.faults e.0 + D.disk.faults e.1) e.2) }
    ensures crash { D.disk.tells log → D.disk.tells side → IfErr result (λ e. Reopens D.disk log side e.0 e.1) }
    ensures still { D.disk.tells side → IfErr result (λ e. Still D.disk side e.1) }
{
    match Pair::open(alloc, log, side) {
        Ok(opened) => room_of(alloc, opened),
        Err((log, side, fault)) => Err((log, side, Trouble::from(fault))),
    }
}

/// The room of a pair's records.
fn room_of<D: Disk>(
    alloc: Global,
    opened: OpenedPair<D>,
) -> Result<(Room<Pair<D>>, Records), (D, D, Trouble)>
    requires few { AreFew opened.records }
    ensures room { IfOk result (λ listed. IsListedOf D.disk opened listed.0 listed.1) }
    ensures none { IfErr result (λ e. (e.0 ≡ log_disk opened.pair) × (e.1 ≡ side_disk opened.pair) × IsNoRoom opened.header opened.records e.2) }
{
    let OpenedPair {
        pair,
        header,
        records,
    } = opened;
    let Header::Room { store } = header else {
        let (log, side) = pair.into_disks();
        return Err((log, side, Trouble::WrongStore));
    };
    match Room::open(alloc, pair, store, records.as_slice()) {
        Ok(room) => Ok((room, records)),
        Err((pair, fault)) => {
            let (log, side) = pair.into_disks();
            Err((log, side, Trouble::from(fault)))
        }
    }
}
