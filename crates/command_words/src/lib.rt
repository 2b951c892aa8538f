//! The words of a command line: what they ask the program for, and what it says of itself.
#![tactic(auto)]

mod help;
mod options;
mod serving;
mod word;
mod words;

pub use help::{command_help, help_texts, version_text};
pub use options::{Options, read_options};
pub use serving::{Serving, read_serving};
pub use word::Word;
pub use words::{IngestFormat, Job, read_words};
