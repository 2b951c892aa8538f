//! HTTP on the connections of a newsroom that threads share: each request is answered in one turn of the room's lock.
//!
//! A turn is answered as a room that nobody shares answers it, by the list that the turn finds. The clock is read before the
//! turn, and the answer is written behind it: no turn waits for a connection. What a server counts is taken before the turn,
//! and counted behind it.
#![tactic(auto)]

mod connection;
mod serving;
mod turns;
mod watching;

pub use connection::serve_connection;
