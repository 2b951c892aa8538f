//! Answers an input by a room: the lines of desks, or the stories that come in from a provider.
#![tactic(auto)]

mod batch;
mod desk;
mod ingest;
mod scope;
mod texts;
mod wire;

pub use batch::answer_input;
pub use desk::{desk_told, question_told};
pub use ingest::{ingest_agency_items, ingest_agency_wire, ingest_item, ingest_wire};
pub use scope::can_tell;
pub use texts::{bad_line, question_answered};
