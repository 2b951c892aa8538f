//! News as it comes over a text wire, and publications as they are written for one.
//!
//! A message is SOH, a header line, an optional slug part, STX, a text, ETX and post-text
//! information up to EOT, the next SOH or the end of input. The header line has a source of 1 to 8
//! letters, a number of 1 to 8 digits, and then an urgency, a category and a word count where they
//! are of their form. Characters are those of ISO 8859-1.
#![tactic(auto)]

mod bytes;
mod fields;
mod found;
mod laws;
mod phase;
mod reach;
mod reader;
mod state;
mod writing;

pub use found::{Found, What};
pub use laws::{read_all, read_so_far};
pub use reader::Reader;
pub use writing::write;
