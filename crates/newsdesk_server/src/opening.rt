//! A store is opened for a server.
ghost use Rattle.std.specs.Prelude.{◌≡◌, IfOk, IfErr};
ghost use Rattle.news_room.specs.Stands.{SomeBook};
ghost use Rattle.news_pair.specs.Keeper.{pair_of};
ghost use Rattle.store_files.specs.Store.{IsOpenRoom};
ghost use Rattle.newsdesk_server.specs.Opening.{IsNotOpened};

use news_io::Disk;
use news_pair::Pair;
use news_room::Room;
use run_status::Status;
use std::alloc::Global;
use store_files::open_room;

/// Opens a log and its side as the room of a server. It writes nothing but what an interrupted packing left to be put right.
///
/// # Errors
///
/// The two files come back with the status that says why they do not serve: 3 where they are not a newsroom's log and its
/// side, 6 where a disk failed, 7 with the place where their bytes show damage, and 9 where there was no memory.
pub fn open_store<D: Disk>(alloc: Global, log: D, side: D) -> Result<Room<Pair<D>>, (Status, D, D)>
    ensures opened { IfOk result (IsOpenRoom D.disk log side) }
    ensures stands { IfOk result (SomeBook (pair_of D.disk)) }
    ensures refused { IfErr result (λ e. IsNotOpened D.disk log side e.1 e.2 e.0) }
{
    match open_room(alloc, log, side) {
        Ok(room) => Ok(room),
        Err((log, side, trouble)) => Err((Status::from(trouble), log, side)),
    }
}
