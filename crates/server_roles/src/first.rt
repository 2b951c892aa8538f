//! The role that serves connections.
ghost use Rattle.std.specs.Prelude.{◌≡◌, List};
ghost use Rattle.news_room.specs.Stands.{Stands};
ghost use Rattle.publish_workers.specs.Links.{CountsFaults};
ghost use Rattle.room_lock.specs.Locks.{front, calls, lock_of, id_of, start_of};
ghost use Rattle.server_roles.specs.Conns.{Conn, Received, EndsWith, is_door_fault};
ghost use Rattle.server_roles.specs.Firsts.{First};

use crate::halts::halt_at_last;
use desk_routes::Routes;
use feed_http::Ended;
use news_io::{Clock, Keeper};
use news_room::Room;
use room_lock::{Pass, Shared};
use server_doors::Door;
use server_watch::Watch;
use shared_connections::serve_connection;
use std::sync::Wait;

/// Why a server ends.
#[derive(Clone, Copy, Debug, PartialEq, Eq)]
pub enum Ending {
    /// A request of the last connection kept a stop.
    Stopped {
        /// The place of the stop in the list.
        place: u64,
    },
    /// The door failed, and a halt was kept.
    DoorFault,
}

/// Serves the connections of a door, one after another, until one keeps a stop or the door fails. Each is given back before
/// the next is asked for.
fn receive<K: Keeper + Drop, C: Clock, G: Door, R: Wait>(
    rt: &R,
    routes: &Routes,
    watch: &Watch,
    shared: &Shared<Room<K>>,
    pass: Pass,
    clock: &mut C,
    door: &mut G,
) -> (Ending, Pass)
    requires lock { lock_of pass ≡ id_of shared.now }
    ensures lock { lock_of result.1 ≡ lock_of pass }
    ensures received { (conns : List Conn) × EndsWith result.0 conns
        × Received G.door C.clock (Stands K.keeper (start_of shared.now)) door.old door.new clock.old clock.new (front pass) (calls pass) (front result.1) (calls result.1) conns }
    ensures door_faults { CountsFaults (is_door_fault result.0) (G.door.faults door.old) (G.door.faults door.new) }
{
    let mut pass = pass;
    for _ in rt.forever() {
        let (mut input, mut output) = match door.accept() {
            Ok(connection) => connection,
            Err(_) => return (Ending::DoorFault, pass),
        };
        let (ended, next) = serve_connection(
            rt,
            routes,
            watch,
            shared,
            pass,
            clock,
            &mut input,
            &mut output,
        );
        door.give_back(input, output);
        if let Ended::Stopped { place } = ended {
            return (Ending::Stopped { place }, next);
        }
        pass = next;
    }
    unreachable!()
}

/// Serves the connections of a door, one after another, until one keeps a stop or the door fails; where the door failed, it
/// keeps a halt, and tries until it is kept.
///
/// Each connection is given back to the door, whose record of it has the bytes that were written and the counts of faults
/// of its two ends.
pub fn first_role<K: Keeper + Drop, C: Clock + Drop, G: Door, R: Wait>(
    rt: &R,
    routes: &Routes,
    watch: &Watch,
    shared: &Shared<Room<K>>,
    pass: Pass,
    mut clock: C,
    mut door: G,
) -> (Ending, Pass, G)
    requires lock { lock_of pass ≡ id_of shared.now }
    ensures lock { lock_of result.1 ≡ lock_of pass }
    ensures first { First G.door C.clock (Stands K.keeper (start_of shared.now)) door result.2 clock (front pass) (calls pass) (front result.1) (calls result.1) result.0 }
    ensures door_faults { CountsFaults (is_door_fault result.0) (G.door.faults door) (G.door.faults result.2) }
{
    let (ending, pass) = receive(rt, routes, watch, shared, pass, &mut clock, &mut door);
    match ending {
        Ending::Stopped { place } => (Ending::Stopped { place }, pass, door),
        Ending::DoorFault => {
            let pass = halt_at_last(rt, shared, pass, &mut clock);
            (Ending::DoorFault, pass, door)
        }
    }
}
