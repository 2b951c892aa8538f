//! A store is opened, and a person hears of it.
ghost use Rattle.std.specs.Prelude.{IfOk, IfErr};
ghost use Rattle.store_files.specs.Store.{IsOpenRoom, IsRefused};

use list_marks::{Notices, notice_room};
use news_io::Disk;
use news_pair::Pair;
use news_room::Room;
use std::alloc::Global;
use store_files::{Trouble, open_room};

/// The room of a log and its side, of which the notices have heard; or why there is none.
pub(crate) fn open_noticed<D: Disk, N: Notices>(
    alloc: Global,
    log: D,
    side: D,
    notices: &mut N,
) -> Result<Room<Pair<D>>, (D, D, Trouble)>
    ensures opened { IfOk result (IsOpenRoom D.disk log side) }
    ensures refused { IfErr result (λ e. IsRefused D.disk log side e.0 e.1 e.2) }
{
    match open_room(alloc, log, side) {
        Ok(room) => {
            notice_room(alloc, &room, notices);
            Ok(room)
        }
        Err(refused) => Err(refused),
    }
}
