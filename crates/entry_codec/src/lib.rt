//! Accepted entries as the bytes of the log's records, one spelling for each entry.
#![tactic(auto)]

mod fault;
mod field;
mod law;
mod passing;
mod read_commands;
mod reading;
mod small;
mod story;
mod words;
mod write_commands;
mod writing;

pub use fault::CodecFault;
pub use field::{names, put_names};
pub use law::{one_spelling_law, record_size_law};
pub use passing::moment_of;
pub use reading::{act_behind, decode};
pub use small::{SmallRecord, encode_small};
pub use writing::{encode, put_act};
