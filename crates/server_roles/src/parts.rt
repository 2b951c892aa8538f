//! The passes of a team put together.
ghost use Rattle.std.specs.Prelude.{◌≡◌, ◌≤◌, ◌+◌, ◌++◌, List, vec_len, All, map};
ghost use Rattle.std.specs.Vec.{vec_capacity};
ghost use Rattle.std.specs.List.{AllPairs};
ghost use mathlib.Core.List.{IsPrefix};
ghost use Rattle.room_lock.specs.declared.view.Call.{Call};
ghost use Rattle.room_lock.specs.Calls.{AllClear};
ghost use Rattle.room_lock.specs.Locks.{front, calls, lock_of, id_of};
ghost use Rattle.server_roles.specs.Teams.{Apart, link_of};

use crate::job::JobDone;
use news_types::StandsFor;
use room_lock::{Pass, Shared};

/// One pass in place of all, and the links behind those that are there, for which the vector `links` has room.
///
/// The pass has seen what each of them had seen, and no calls of two of them overlap.
pub fn part<T: StandsFor + Drop, C: Drop, L: Drop>(
    shared: &Shared<T>,
    pass: Pass,
    mut jobs: Vec<JobDone<C, L>>,
    links: Vec<L>,
) -> (Pass, Vec<L>)
    requires lock { (lock_of pass ≡ id_of shared.now) × All (λ j. lock_of j.pass ≡ id_of shared.now) jobs.items }
    requires room { vec_len links + vec_len jobs ≤ vec_capacity links }
    ensures lock { lock_of result.0 ≡ id_of shared.now }
    ensures front { IsPrefix (front pass) (front result.0) × All (λ j. IsPrefix (front j.pass) (front result.0)) jobs.items }
    ensures apart { All (λ j. AllClear (calls pass) (calls j.pass)) jobs.items × AllPairs Apart jobs.items }
    // what is clear of all calls is clear of those of each pass
    ensures clear { (ds : List Call) → AllClear (calls result.0) ds → AllClear (calls pass) ds × All (λ j. AllClear (calls j.pass) ds) jobs.items }
    ensures links { (result.1.items ≡ links.items ++ map link_of jobs.items)
        × (vec_capacity result.1 ≡ vec_capacity links) × (vec_len result.1 ≡ vec_len links + vec_len jobs) }
{
    let Some(job) = jobs.pop() else {
        return (pass, links);
    };
    let JobDone {
        pass: other,
        link,
        ..
    } = job;
    let (whole, mut all) = part(shared, pass, jobs, links);
    all.push_reserved(link);
    (shared.join(whole, other), all)
}
