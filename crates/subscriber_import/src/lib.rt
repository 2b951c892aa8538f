//! Subscribers are added from a table: one record for each, as comma-separated values.
#![tactic(auto)]

mod import;
mod laws;
mod line;
mod report;
mod rows;
mod table;
mod wanted;

pub use import::{Imported, import_table};
pub use laws::import_law;
pub use line::{Line, Lines};
pub use report::lines_text;
