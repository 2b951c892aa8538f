//! HTTP on one connection: each request is answered in a turn of the room, and the answers are written in order.
//!
//! What a turn is answered, and which entries follow, is one definition over the list (`specs/Outcome.antt`): the call of the
//! newsroom that the request asks for, through the table of statuses. A connection is served by whatever answers requests
//! (`Answers`); a room that nobody shares is one of these.
#![tactic(auto)]

mod answers;
mod connection;
mod ended;
mod exchange;
mod laws;
mod plain;
mod telling;
mod turn;
mod wire;

pub use answers::{Answers, HttpAnswer};
pub use connection::serve;
pub use ended::Ended;
pub use laws::statuses_law;
pub use plain::serve_plain;
pub use turn::answer_one;
