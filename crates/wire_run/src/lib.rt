//! The stories of a wire, or one item, are answered one after the other, from a source to a sink.
//!
//! Each answer is a line, and a fault is answered by a line of its own. An answer is passed on before what follows it is
//! looked at.
#![tactic(auto)]

mod ingesting;
mod item;
mod laws;
mod members;
mod run;
mod wire;
mod words;

pub use ingesting::Ingesting;
pub use item::{extend_item, read_through};
pub use laws::decided_law;
pub use members::pass_on;
pub use run::{run_item, run_wire};
pub use words::text_of;
