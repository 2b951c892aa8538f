//! Text wires as news agencies send them: messages are cut out of the input, and each is read.
//!
//! A message begins with SOH. A header line has source and number and then urgency, category and
//! word count where they are of their form; a slug part may follow it. STX begins the text, ETX
//! ends it, and post-text information follows. A message ends at EOT, at a line `NNNN` behind its
//! ETX, before the next SOH or with the input.
#![tactic(auto)]

mod bytes;
mod characters;
mod fault;
mod found;
mod header;
mod headline;
mod held_words;
mod identity;
mod laws;
mod message;
mod parts;
mod phase;
mod reach;
mod reader;
mod state;

pub use fault::{What, WireFault};
pub use found::Found;
pub use laws::{identity_law, read_all, read_so_far};
pub use message::read_message;
pub use reader::Reader;
