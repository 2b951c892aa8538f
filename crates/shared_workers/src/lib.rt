//! Publish workers that share a room: each takes turns with it behind its lock.
//!
//! A worker claims in one turn of the lock, sends the frame and reads the reply outside it, and keeps the receipt in another
//! turn. So workers wait for their receivers beside each other, and none of them keeps the room from the others meanwhile.
#![tactic(auto)]

mod exchange;
mod tally;
mod worker;
mod works;

pub use tally::{Tally, worker_loop};
pub use worker::{WorkerTurn, worker_turn};
