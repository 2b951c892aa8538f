//! Tests of the server and of all that it is made of, down to the lock: threads, doubles that fail or wait, and bytes that
//! were written by hand.
//!
//! Whatever the order of the threads, each call is answered at its place in the one list. Whichever call of its disk fails, a
//! room tells it, and a crash then leaves the list as it was before the call, or with the one entry that was tried.
#![tactic(auto)]

#[cfg(test)]
mod connections;
#[cfg(test)]
mod devices;
#[cfg(test)]
mod given;
#[cfg(test)]
mod lock;
#[cfg(test)]
mod meeting;
#[cfg(test)]
mod roles;
#[cfg(test)]
mod servers;
#[cfg(test)]
mod threads;
#[cfg(test)]
mod workers;
