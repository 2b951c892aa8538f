//! Newsrooms in memory, and their clocks.
ghost use Rattle.std.specs.Prelude.{IfOk};
ghost use Rattle.plain_server.specs.Rooms.{StandsForSome};

use desk_routes::Routes;
use news_io::{MemoryClock, MemoryKeeper};
use news_room::Room;
use std::alloc::Global;
use std::io::{self, ErrorKind};
use uuid::Uuid;

/// The store of every newsroom here.
const STORE: u128 = 0x6ba7b810_9dad_11d1_80b4_00c04fd430c8;

/// What a clock shows first, in seconds.
const FIRST_MOMENT: u64 = 1000;

/// As many seconds it goes on, one at each request.
const SECONDS: u64 = 64;

/// There is no memory.
pub(crate) fn out_of_memory() -> io::Error {
    io::Error::from(ErrorKind::OutOfMemory)
}

/// A newsroom without an entry, over a log in memory that uses so many bytes. Of the appends that have room in the log the one
/// with this number fails, counted from 1.
pub(crate) fn new_room(alloc: Global, used: u64, failing: u64) -> io::Result<Room<MemoryKeeper>>
    ensures { IfOk result StandsForSome }
{
    let keeper = MemoryKeeper::starting_at(alloc, used).failing_at(vec![in alloc; failing]?);
    match Room::open(alloc, keeper, Uuid::from_u128(STORE), &[]) {
        Ok(room) => Ok(room),
        Err(_) => Err(out_of_memory()),
    }
}

/// A clock that begins at the first moment.
pub(crate) fn new_clock(alloc: Global) -> io::Result<MemoryClock> {
    let mut readings = Vec::new(alloc);
    for second in 0..SECONDS {
        readings.push(FIRST_MOMENT + second)?;
    }
    if readings.is_empty() {
        return Err(out_of_memory());
    }
    Ok(MemoryClock::new(readings))
}

/// The routes of the requests.
pub(crate) fn new_routes(alloc: Global) -> io::Result<Routes> {
    match Routes::new(alloc) {
        Ok(routes) => Ok(routes),
        Err(_) => Err(out_of_memory()),
    }
}
