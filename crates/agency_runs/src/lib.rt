//! Wires and items as news agencies send them are answered one member after the other, from a source to a sink.
//!
//! Each answer is a line, and a fault is answered by a line of its own. An answer is passed on before what follows it is
//! looked at.
#![tactic(auto)]

mod faults;
mod items;
mod laws;
mod messages;
mod receiving;
mod run;
mod wire;

pub use faults::{message_fault, too_long};
pub use laws::{decided_law, place_law};
pub use messages::{Told, read_at};
pub use receiving::Receiving;
pub use run::{run_agency_items, run_agency_wire};
