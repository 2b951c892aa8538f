//! The archive: what a query finds among the publications of a room, page by page, and the answer as lines or as an object.
#![tactic(auto)]

mod answer;
mod asked;
mod hit;
mod laws;
mod page;
mod searching;
mod told;

pub use answer::answer_text;
pub use laws::archive_law;
pub use page::{Numbers, Page};
pub use searching::search;
pub use told::{Told, tell_archive};
