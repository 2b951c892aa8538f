//! Each worker gets a pass, a clock and a link.
ghost use Rattle.std.specs.Prelude.{◌≡◌, ◌≤◌, ◌+◌, ◌++◌, [], List, vec_len, All, map};
ghost use Rattle.std.specs.Vec.{vec_capacity};
ghost use Rattle.room_lock.specs.Locks.{front, calls, lock_of, id_of};
ghost use Rattle.server_roles.specs.declared.job.Job.{Job as OneJob};
ghost use Rattle.newsdesk_server.specs.Workers.{IsNewPass, pass_of, clock_of, link_of};

use news_types::StandsFor;
use room_lock::{Pass, Shared};
use server_roles::Job;

/// As many new passes as are wanted, or fewer where there is no memory, in an empty vector that has room for them.
pub(crate) fn split_off<T: StandsFor + Drop>(
    shared: &Shared<T>,
    pass: Pass,
    count: usize,
    made: Vec<Pass>,
) -> (Pass, Vec<Pass>)
    requires lock { lock_of pass ≡ id_of shared.now }
    requires room { (count ≤ vec_capacity made) × (made.items ≡ []) }
    ensures pass { (lock_of result.0 ≡ id_of shared.now) × (front result.0 ≡ front pass) × (calls result.0 ≡ calls pass) }
    ensures made { All (λ p. IsNewPass (id_of shared.now) (front pass) p) result.1.items }
    ensures few { vec_len result.1 ≤ count }
{
    let mut pass = pass;
    let mut made = made;
    for _ in 0..count {
        match shared.split(pass) {
            Ok((kept, given)) => {
                pass = kept;
                made.push_reserved(given);
            }
            Err((kept, _memory)) => return (kept, made),
        }
    }
    (pass, made)
}

/// The jobs of the workers, each with its pass, its clock and its link, in order, behind those that are there. The vector
/// `jobs` has room for them.
pub(crate) fn deal<C: Drop, L: Drop>(
    mut passes: Vec<Pass>,
    mut clocks: Vec<C>,
    mut links: Vec<L>,
    jobs: Vec<Job<C, L>>,
) -> Vec<Job<C, L>>
    requires len { (vec_len passes ≡ vec_len links) × (vec_len clocks ≡ vec_len links) }
    requires room { vec_len jobs + vec_len links ≤ vec_capacity jobs }
    ensures len { (vec_len result ≡ vec_len jobs + vec_len links) × (vec_capacity result ≡ vec_capacity jobs) }
    ensures jobs { (more : List (OneJob C L)) × (result.items ≡ jobs.items ++ more) × (map pass_of more ≡ passes.items)
        × (map clock_of more ≡ clocks.items) × (map link_of more ≡ links.items) }
{
    let Some(link) = links.pop() else {
        return jobs;
    };
    let pass = passes.pop().unwrap();
    let clock = clocks.pop().unwrap();
    let mut all = deal(passes, clocks, links, jobs);
    all.push_reserved(Job { pass, clock, link });
    all
}
