//! The lines of a batch are read: requests, questions and receipts, each one JSON object; and the objects of stories,
//! packages and targets.
//!
//! What a line says is the value of its properties, or the first of them, in the order in which a command lists them, that
//! is missing, of the wrong type, or not of its form. A list is judged whole, and then what stands in it, one object after
//! another. Properties that are not named are passed over.
#![tactic(auto)]

mod asked;
mod commands;
mod fields;
mod forms;
mod lines;
mod objects;
mod property;
mod questions;

pub use asked::Asked;
pub use lines::{
    Described, PackageRequest, read_archive_body, read_line, read_package, read_package_body,
    read_reach_body, read_receipt_body, read_request_body, read_story,
};
pub use property::{LineFault, LineProperty, word_of_property};
pub use questions::read_register;
