//! As many workers as there are jobs.
ghost use Rattle.std.specs.Prelude.{◌≡◌, ◌≤◌, ◌+◌, ◌++◌, List, vec_len, All};
ghost use Rattle.std.specs.Vec.{vec_capacity};
ghost use Rattle.std.specs.List.{AllZip};
ghost use Rattle.std.specs.Thread.{IsSync};
ghost use Rattle.server_roles.specs.declared.job.JobDone.{JobDone};

use crate::crew::Crew;
use crate::job::{Job, JobDone};
use server_watch::Watch;
use std::sync::Wait;
use std::thread::{Threads, join};

/// Does each job in a thread of its own. They come back in their order, behind those that are done already, for which the
/// vector `done` has room.
pub fn team<C: Send + Drop, L: Send + Drop, S: Crew<C, L> + Sync, R: Threads + Wait + Sync>(
    rt: &R,
    watch: &Watch,
    crew: &S,
    mut jobs: Vec<Job<C, L>>,
    done: Vec<JobDone<C, L>>,
) -> Vec<JobDone<C, L>>
    requires room { vec_len done + vec_len jobs ≤ vec_capacity done }
    requires ready { All (λ j. S.is_ready crew.now j) jobs.items }
    ensures room { vec_capacity result ≡ vec_capacity done }
    ensures count { vec_len result ≡ vec_len done + vec_len jobs }
    ensures work { (more : List (JobDone C L)) × (result.items ≡ done.items ++ more) × AllZip (S.did crew.now) jobs.items more }
{
    let Some(job) = jobs.pop() else {
        return done;
    };
    let (mine, mut all) = join(
        rt,
        || -> JobDone<C, L>
            requires { S.is_ready crew.now job }
            ensures { S.did crew.entry.now job result }
        { crew.work(rt, watch, job) },
        || -> Vec<JobDone<C, L>>
            requires { IsSync R.row × IsSync S.row × (vec_len done + vec_len jobs ≤ vec_capacity done) × All (λ j. S.is_ready crew.now j) jobs.items }
            ensures { (vec_capacity result ≡ vec_capacity done) × (vec_len result ≡ vec_len done + vec_len jobs)
                × ((more : List (JobDone C L)) × (result.items ≡ done.items ++ more) × AllZip (S.did crew.entry.now) jobs.items more) }
        { team(rt, watch, crew, jobs, done) },
    );
    all.push_reserved(mine);
    all
}
