//! What a desk asks of a room: the items that stand on it, the things that there are, whom a publication would reach, and what
//! becomes of the publications of an item, each answered as one object.
#![tactic(auto)]

mod answer;
mod courses;
mod items;
mod line;
mod published;
mod reach;
mod reached;
mod rows;
mod rule_rows;
mod things;
mod words;

pub use answer::{DeskTold, answer_desk};
pub use courses::course;
pub use reached::verdict_object;
pub use words::word_of_course;
