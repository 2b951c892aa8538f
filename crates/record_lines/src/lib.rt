//! The records of a list as lines that are sent one by one, and the replies that say how many are kept.
#![tactic(auto)]

mod kept;
mod law;
mod number;
mod record;

pub use kept::{kept_line, read_kept};
pub use law::{records_law, replies_law};
pub use record::{FirstRecord, RecordLine, first_record, record_line, whole_record};
