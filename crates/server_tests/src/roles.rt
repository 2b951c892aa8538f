//! The first role over a door in memory. What is expected is counted by hand.
ghost use Rattle.std.specs.Prelude.{◌≡◌};
ghost use Rattle.room_lock.specs.Locks.{lock_of, id_of};

use crate::given::{QUESTION, STOP, empty_room, entries_at_last, locked, steady_clock};
use desk_routes::Routes;
use news_io::{MemoryClock, MemoryKeeper, MemorySource};
use news_room::Room;
use room_lock::{Pass, Shared};
use server_doors::MemoryDoor;
use server_roles::{Ending, first_role};
use server_watch::Watch;
use std::alloc::Global;
use std::process::Abort;
use std::sync::Wait;
use std::test::Fail;

/// What the first role came to in a new room.
#[derive(Clone, Copy, Debug, PartialEq, Eq)]
struct End {
    ending: Ending,
    given_back: usize,
    entries: u64,
}

/// The first role at 1000.
fn serve<R: Wait>(
    rt: &R,
    routes: &Routes,
    watch: &Watch,
    shared: &Shared<Room<MemoryKeeper>>,
    pass: Pass,
    clock: MemoryClock,
    door: MemoryDoor,
) -> (Ending, Pass, MemoryDoor)
    requires { lock_of pass ≡ id_of shared.now }
    ensures { lock_of result.1 ≡ lock_of pass }
{
    first_role(rt, routes, watch, shared, pass, clock, door)
}

/// What it comes to over a door that gives one connection, with this input.
fn end_of(rt: &(impl Abort + Wait), alloc: Global, input: &[u8]) -> Result<End, Fail> {
    let Ok(routes) = Routes::new(alloc) else {
        return Err(Fail::new("no routes"));
    };
    let inputs = vec![in alloc; MemorySource::new(input.to_vec(alloc)?)]?;
    let door = MemoryDoor::new(alloc, inputs, Vec::new(alloc));
    let clock = steady_clock(rt, alloc);
    let (shared, pass) = locked(rt, alloc, empty_room(rt, alloc));
    let watch = Watch::new(alloc);
    let (ending, pass, door) = serve(rt, &routes, &watch, &shared, pass, clock, door);
    Ok(End {
        ending,
        given_back: door.returned().len(),
        entries: entries_at_last(rt, shared, pass),
    })
}

#[test]
fn a_stop_ends_it(rt: HostRuntime) -> Result<(), Fail> {
    let stopped = End {
        ending: Ending::Stopped { place: 1 },
        given_back: 1,
        entries: 1,
    };
    assert_eq!(rt; end_of(&rt, rt.alloc(), STOP)?, stopped);
    Ok(())
}

#[test]
fn a_halt_is_kept_where_the_door_fails(rt: HostRuntime) -> Result<(), Fail> {
    let halted = End {
        ending: Ending::DoorFault,
        given_back: 1,
        entries: 1,
    };
    assert_eq!(rt; end_of(&rt, rt.alloc(), QUESTION)?, halted);
    Ok(())
}
