//! What workers share, and do their jobs with.
ghost use Rattle.server_roles.specs.declared.job.Job.{Job};
ghost use Rattle.server_roles.specs.declared.job.JobDone.{JobDone};

use crate::job::{Job, JobDone};
use news_io::{Clock, Keeper, Link};
use news_room::Room;
use room_lock::Shared;
use server_watch::Watch;
use shared_workers::worker_loop;
use std::sync::Wait;

/// What workers share, and do their jobs with.
pub trait Crew<C, L> {
    /// That a job can be done with it.
    ghost is_ready: { Self → Job C L → Type 0 };

    /// What a job comes to.
    ghost did: { Self → Job C L → JobDone C L → Type 0 };

    /// Does one job, and counts in the watch what happens in it.
    fn work<R: Wait>(&self, rt: &R, watch: &Watch, job: Job<C, L>) -> JobDone<C, L>
        requires { is_ready self.now job }
        ensures { did self.now job result };
}

impl<K: Keeper + Drop, C: Clock, L: Link> Crew<C, L> for Shared<Room<K>> {
    ghost use Rattle.std.specs.Prelude.{◌≡◌};
    ghost use Rattle.news_room.specs.Stands.{Stands};
    ghost use Rattle.room_lock.specs.Locks.{lock_of, id_of, start_of, base_of};
    ghost use Rattle.server_roles.specs.Teams.{WentRounds};

    ghost is_ready = { λ shared job. lock_of job.pass ≡ id_of shared };

    ghost did = { λ shared job done. WentRounds C.clock L.link (base_of shared) (Stands K.keeper (start_of shared)) job done };

    fn work<R: Wait>(&self, rt: &R, watch: &Watch, job: Job<C, L>) -> JobDone<C, L>
        requires { lock_of job.pass ≡ id_of self.now }
        ensures { WentRounds C.clock L.link (base_of self.now) (Stands K.keeper (start_of self.now)) job result }
    {
        let Job {
            pass,
            mut clock,
            mut link,
        } = job;
        let (tally, pass) = worker_loop(rt, watch, self, pass, &mut clock, &mut link);
        JobDone {
            pass,
            clock,
            link,
            tally,
        }
    }
}
