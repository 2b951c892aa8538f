//! All roles beside each other.
ghost use Rattle.std.specs.Prelude.{◌≡◌, ◌≤◌, ◌+◌, [], List, vec_len, All};
ghost use Rattle.std.specs.Vec.{vec_capacity};
ghost use Rattle.std.specs.List.{AllZip};
ghost use Rattle.std.specs.Thread.{IsSync};
ghost use mathlib.Core.List.{IsPrefix};
ghost use Rattle.news_types.specs.declared.entry.Entry.{Entry};
ghost use Rattle.news_types.specs.Books.{Book, onto};
ghost use Rattle.news_room.specs.Stands.{Stands};
ghost use Rattle.publish_workers.specs.Links.{CountsFaults};
ghost use Rattle.room_lock.specs.Locks.{front, calls, lock_of, id_of, start_of, base_of};
ghost use Rattle.server_roles.specs.Conns.{is_door_fault};
ghost use Rattle.server_roles.specs.Firsts.{First};
ghost use Rattle.server_roles.specs.Teams.{WentRounds};
ghost use Rattle.server_roles.specs.Ends.{Roles};

use crate::first::{Ending, first_role};
use crate::job::{Job, JobDone};
use crate::parts::part;
use crate::teams::team;
use desk_routes::Routes;
use news_io::{Clock, Keeper, Link};
use news_room::Room;
use news_types::StandsFor;
use room_lock::{Pass, Shared};
use server_doors::Door;
use server_watch::Watch;
use std::sync::Wait;
use std::thread::{Threads, join};

/// Closes the lock, and gives the value back. Where there is no memory it tries again.
pub fn close_at_last<T: StandsFor + Drop, R: Wait>(rt: &R, shared: Shared<T>, pass: Pass) -> T
    requires lock { lock_of pass ≡ id_of shared }
    ensures room { (more : List Entry) × IsPrefix (front pass) more
        × ((b : Book) → T.stands (start_of shared) b → T.stands result (onto more b)) }
{
    let mut shared = shared;
    let mut pass = pass;
    for _ in rt.forever() {
        match shared.close(rt, pass) {
            Ok(room) => return room,
            Err((lock, again, _memory)) => {
                shared = lock;
                pass = again;
            }
        }
    }
    unreachable!()
}

/// The workers, and the first role beside them.
fn beside<
    K: Keeper + Drop + Send,
    C: Clock + Send + Drop,
    L: Link + Send + Drop,
    G: Door + Send + Drop,
    R: Threads + Wait + Sync,
>(
    rt: &R,
    routes: &Routes,
    watch: &Watch,
    shared: &Shared<Room<K>>,
    pass: Pass,
    clock: C,
    door: G,
    jobs: Vec<Job<C, L>>,
    done: Vec<JobDone<C, L>>,
) -> (Vec<JobDone<C, L>>, (Ending, Pass, G))
    requires lock { (lock_of pass ≡ id_of shared.now) × All (λ j. lock_of j.pass ≡ id_of shared.now) jobs.items }
    requires room { (vec_len jobs ≤ vec_capacity done) × (done.items ≡ []) }
    ensures lock { lock_of result.1.1 ≡ lock_of pass }
    ensures work { AllZip (WentRounds C.clock L.link (base_of shared.now) (Stands K.keeper (start_of shared.now))) jobs.items result.0.items }
    ensures count { vec_len result.0 ≡ vec_len jobs }
    ensures first { First G.door C.clock (Stands K.keeper (start_of shared.now)) door result.1.2 clock (front pass) (calls pass) (front result.1.1) (calls result.1.1) result.1.0 }
    ensures door_faults { CountsFaults (is_door_fault result.1.0) (G.door.faults door) (G.door.faults result.1.2) }
{
    join(
        rt,
        || -> Vec<JobDone<C, L>>
            requires { IsSync R.row × (vec_len jobs ≤ vec_capacity done) × (done.items ≡ []) × All (λ j. lock_of j.pass ≡ id_of shared.now) jobs.items }
            ensures { (vec_len result ≡ vec_len jobs)
                × AllZip (WentRounds C.clock L.link (base_of shared.entry.now) (Stands K.keeper (start_of shared.entry.now))) jobs.items result.items }
        { team(rt, watch, shared, jobs, done) },
        || -> (Ending, Pass, G)
            requires { lock_of pass ≡ id_of shared.now }
            ensures { (lock_of result.1 ≡ lock_of pass)
                × First G.door C.clock (Stands K.keeper (start_of shared.entry.now)) door result.2 clock (front pass) (calls pass) (front result.1) (calls result.1) result.0
                × CountsFaults (is_door_fault result.0) (G.door.faults door) (G.door.faults result.2) }
        { first_role(rt, routes, watch, shared, pass, clock, door) },
    )
}

/// What the roles start with.
#[derive(Drop)]
pub struct Server<C, G, L> {
    /// The clock of the first role.
    pub clock: C,
    /// The door of the connections.
    pub door: G,
    /// The workers.
    pub jobs: Vec<Job<C, L>>,
    /// An empty vector with room for as many.
    pub done: Vec<JobDone<C, L>>,
    /// A vector with room for as many links more.
    pub links: Vec<L>,
}

/// What the roles leave.
#[derive(Drop)]
pub struct ServerEnd<G, L> {
    /// Why they ended.
    pub ending: Ending,
    /// The door behind the last connection.
    pub door: G,
    /// The links of the workers, in the order of the jobs, behind those that were there.
    pub links: Vec<L>,
}

/// Runs the first role and the workers beside each other, and puts their passes together.
fn together<
    K: Keeper + Drop + Send,
    C: Clock + Send + Drop,
    L: Link + Send + Drop,
    G: Door + Send + Drop,
    R: Threads + Wait + Sync,
>(
    rt: &R,
    routes: &Routes,
    watch: &Watch,
    shared: &Shared<Room<K>>,
    pass: Pass,
    server: Server<C, G, L>,
) -> (Pass, ServerEnd<G, L>)
    requires lock { (lock_of pass ≡ id_of shared.now) × All (λ j. lock_of j.pass ≡ id_of shared.now) server.jobs.items }
    requires room { (vec_len server.jobs ≤ vec_capacity server.done) × (server.done.items ≡ []) × (vec_len server.links + vec_len server.jobs ≤ vec_capacity server.links) }
    ensures lock { lock_of result.0 ≡ id_of shared.now }
    ensures roles { Roles G.door C.clock L.link (base_of shared.now) (Stands K.keeper (start_of shared.now)) server.door result.1.door server.clock (front pass) (calls pass) server.jobs.items server.links.items result.1.links.items result.1.ending (front result.0) }
    ensures door_faults { CountsFaults (is_door_fault result.1.ending) (G.door.faults server.door) (G.door.faults result.1.door) }
{
    let Server {
        clock,
        door,
        jobs,
        done,
        links,
    } = server;
    let (all, (ending, first, door)) = beside(
        rt, routes, watch, shared, pass, clock, door, jobs, done,
    );
    let (pass, links) = part(shared, first, all, links);
    (
        pass,
        ServerEnd {
            ending,
            door,
            links,
        },
    )
}

/// Runs the first role and the workers beside each other, until all have ended, and gives the room and what they leave
/// back.
pub fn run_roles<
    K: Keeper + Drop + Send,
    C: Clock + Send + Drop,
    L: Link + Send + Drop,
    G: Door + Send + Drop,
    R: Threads + Wait + Sync,
>(
    rt: &R,
    routes: &Routes,
    watch: &Watch,
    shared: Shared<Room<K>>,
    pass: Pass,
    server: Server<C, G, L>,
) -> (Room<K>, ServerEnd<G, L>)
    requires lock { (lock_of pass ≡ id_of shared) × All (λ j. lock_of j.pass ≡ id_of shared) server.jobs.items }
    requires room { (vec_len server.jobs ≤ vec_capacity server.done) × (server.done.items ≡ []) × (vec_len server.links + vec_len server.jobs ≤ vec_capacity server.links) }
    // the room stands for a list with these more, of which each role saw a beginning
    ensures roles { (more : List Entry) × ((b : Book) → Stands K.keeper (start_of shared) b → Stands K.keeper result.0 (onto more b))
        × Roles G.door C.clock L.link (base_of shared) (Stands K.keeper (start_of shared)) server.door result.1.door server.clock (front pass) (calls pass) server.jobs.items server.links.items result.1.links.items result.1.ending more
        × CountsFaults (is_door_fault result.1.ending) (G.door.faults server.door) (G.door.faults result.1.door) }
{
    let (pass, end) = together(rt, routes, watch, &shared, pass, server);
    (close_at_last(rt, shared, pass), end)
}
