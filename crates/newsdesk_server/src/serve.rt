//! A server runs.
ghost use Rattle.std.specs.Prelude.{◌≡◌, ◌+◌, ◌<◌, ◌↔◌, vec_len};
ghost use Rattle.news_room.specs.Stands.{SomeBook};
ghost use Rattle.run_status.specs.declared.status.Status.TheVariants.{Full};
ghost use Rattle.newsdesk_server.specs.Serving.{Serves};

use crate::prepare::{Ready, prepare};
use crate::setup::{Served, Setup};
use crate::summary::{tell, tell_summary};
use news_io::{Clock, Keeper, Link, Sink};
use server_doors::Door;
use server_roles::{ServerEnd, run_roles};
use server_watch::Watch;
use std::alloc::Global;
use std::sync::Wait;
use std::thread::Threads;

/// Serves the connections of a door, one after another, and pushes what is due over the links, a worker for each, until a
/// stop or until the door fails; then prints how many entries the list has, and how its feeds fare.
///
/// Where the door fails a halt is kept, which ends the workers. The room, the door and the links come back, the links in their
/// order. Nothing is promised of when it returns.
///
/// The status is 0 behind a stop, 4 where the door failed, 5 where the output failed at the summary, 8 where the room's size
/// and the 14 bytes of a stop are more than 1073741824 bytes at the start, and 9 where there was no memory, at the start or for
/// the summary. A status other than 0 and 5 is told as a line.
pub fn run_serve<
    K: Keeper + Drop + Send,
    C: Clock + Send + Drop,
    G: Door + Send + Drop,
    L: Link + Send + Drop,
    O: Sink,
    R: Threads + Wait + Sync,
>(rt: &R, alloc: Global, setup: Setup<K, C, G, L>, output: &mut O) -> Served<K, G, L>
    requires stands { SomeBook K.keeper setup.room }
    requires clocks { vec_len setup.clocks ≡ vec_len setup.links + 1 }
    ensures full { result.status ≡ Full ↔ 1073741824 < K.keeper.used setup.room.keeper + 14 }
    ensures served { Serves K.keeper C.clock G.door L.link setup result O.sink output.old output.new }
{
    let ready = match prepare(rt, alloc, setup) {
        Ok(ready) => ready,
        Err(held) => {
            tell(output, held.status);
            return held;
        }
    };
    let Ready {
        routes,
        shared,
        pass,
        server,
    } = ready;
    let watch = Watch::new(alloc);
    let (room, end) = run_roles(rt, &routes, &watch, shared, pass, server);
    let ServerEnd {
        ending,
        door,
        links,
    } = end;
    Served {
        status: tell_summary(alloc, output, &room, ending),
        room,
        door,
        links,
    }
}
