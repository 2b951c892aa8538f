//! A server is made ready, or why it is not.
ghost use Rattle.std.specs.Prelude.{◌≡◌, ◌≤◌, ◌+◌, [], vec_len, IfOk, IfErr};
ghost use Rattle.std.specs.Vec.{vec_capacity};
ghost use Rattle.news_room.specs.Stands.{SomeBook};
ghost use Rattle.newsdesk_server.specs.Ready.{HasRoomFor, IsReady, IsHeld};

use crate::deal::{deal, split_off};
use crate::setup::{Served, Setup};
use desk_routes::Routes;
use news_io::{Clock, Keeper, Link};
use news_room::Room;
use news_types::Memory;
use room_lock::{Pass, Shared};
use run_status::Status;
use server_doors::Door;
use server_roles::{Job, JobDone, Server, close_at_last};
use std::alloc::Global;
use std::sync::Wait;

/// The most bytes that a room may use for a server to begin: a stop, of 14 bytes, has to find room behind them.
const MOST: u64 = 1_073_741_810;

/// A server that is ready.
#[derive(Drop)]
pub(crate) struct Ready<K: Keeper, C, G, L> {
    pub routes: Routes,
    pub shared: Shared<Room<K>>,
    /// The pass of the first role.
    pub pass: Pass,
    pub server: Server<C, G, L>,
}

/// All the memory that the roles start with.
#[derive(Drop)]
struct Space<C, L> {
    routes: Routes,
    passes: Vec<Pass>,
    jobs: Vec<Job<C, L>>,
    done: Vec<JobDone<C, L>>,
    links: Vec<L>,
}

impl<C: Drop, L: Drop> Space<C, L> {
    /// For so many workers.
    fn reserve(alloc: Global, count: usize) -> Result<Space<C, L>, Memory>
        ensures { IfOk result (HasRoomFor count) }
    {
        Ok(Space {
            routes: Routes::new(alloc)?,
            passes: Vec::with_capacity(alloc, count)?,
            jobs: Vec::with_capacity(alloc, count)?,
            done: Vec::with_capacity(alloc, count)?,
            links: Vec::with_capacity(alloc, count)?,
        })
    }
}

/// What a server leaves that does not begin, with all that it was given.
fn held<K, C: Drop, G, L>(status: Status, setup: Setup<K, C, G, L>) -> Served<K, G, L>
    ensures { (result.status ≡ status) × (result.room ≡ setup.room) × (result.door ≡ setup.door) × (result.links ≡ setup.links) }
{
    let Setup {
        room,
        door,
        clocks: _,
        links,
    } = setup;
    Served {
        status,
        room,
        door,
        links,
    }
}

/// Makes the lock around the room, and gives each role what it needs.
///
/// # Errors
///
/// The status is 8 where the room uses so much that a stop finds no place, and 9 where there was no memory.
pub(crate) fn prepare<K: Keeper + Drop, C: Clock + Drop, G: Door + Drop, L: Link + Drop, R: Wait>(
    rt: &R,
    alloc: Global,
    setup: Setup<K, C, G, L>,
) -> Result<Ready<K, C, G, L>, Served<K, G, L>>
    requires stands { SomeBook K.keeper setup.room }
    requires clocks { vec_len setup.clocks ≡ vec_len setup.links + 1 }
    ensures ready { IfOk result (IsReady K.keeper setup) }
    ensures held { IfErr result (IsHeld K.keeper setup) }
{
    if setup.room.size() > MOST {
        return Err(held(Status::Full, setup));
    }
    let count = setup.links.len();
    let space = match Space::reserve(alloc, count) {
        Ok(space) => space,
        Err(Memory) => return Err(held(Status::Memory, setup)),
    };
    let Setup {
        room,
        door,
        mut clocks,
        links,
    } = setup;
    let (shared, pass) = match Shared::new(alloc, room) {
        Ok(made) => made,
        Err((room, Memory)) => {
            return Err(Served {
                status: Status::Memory,
                room,
                door,
                links,
            });
        }
    };
    let (pass, passes) = split_off(&shared, pass, count, space.passes);
    if passes.len() < count {
        return Err(Served {
            status: Status::Memory,
            room: close_at_last(rt, shared, pass),
            door,
            links,
        });
    }
    let clock = clocks.remove(0);
    Ok(Ready {
        routes: space.routes,
        shared,
        pass,
        server: Server {
            clock,
            door,
            jobs: deal(passes, clocks, links, space.jobs),
            done: space.done,
            links: space.links,
        },
    })
}
