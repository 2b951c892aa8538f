//! Items are read as agencies send them: ninjs 1, 2 and 3, and the output of Superdesk.
//!
//! An input is one JSON value: an item, or a list of items, with or without a byte order mark. Each property is read in lower
//! case or else in camel case; one that is null is missing, and every other property is passed over. What an item says is the
//! value of its properties, or the first fault in the order of the fields: the identity, the kind, the status, the moments, the
//! headline, the byline, the slugline, the language, the body, the copyright. Which property gives a field is this project's own
//! choice, and no statement about a standard.
#![tactic(auto)]

mod body;
mod fault;
mod items;
mod lists;
mod moments;
mod properties;
mod story;
mod texts;
mod words;

pub use fault::{ItemFault, Property};
pub use items::read_items;
