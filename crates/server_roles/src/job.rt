//! A worker, before its rounds and behind them.
use room_lock::Pass;
use shared_workers::Tally;

/// A worker that is to go its rounds.
#[derive(Drop)]
pub struct Job<C, L> {
    /// Its pass of the room's lock.
    pub pass: Pass,
    /// Its clock.
    pub clock: C,
    /// The link that it sends over.
    pub link: L,
}

/// A worker that has found a stop.
#[derive(Drop)]
pub struct JobDone<C, L> {
    /// Its pass, with the calls of its rounds.
    pub pass: Pass,
    /// Its clock.
    pub clock: C,
    /// Its link, as the last round left it.
    pub link: L,
    /// What its rounds came to.
    pub tally: Tally,
}
