//! Runs of the program on an input that is read whole: the import of a table, and a package.
#![tactic(auto)]

mod import;
mod output;
mod package;
mod reading;

pub use import::import_input;
pub use package::package_input;
