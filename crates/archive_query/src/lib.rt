//! Queries of the archive: how they are spelled, and which publications they find.
#![tactic(auto)]

mod ask;
mod folds;
mod holds;
mod laws;
mod near;
mod parsing;
mod reader;
mod subject;
mod test;
mod tokens;
mod value;
mod words;

pub use ask::Ask;
pub use laws::queries_law;
pub use parsing::{QueryFault, parse};
pub use subject::{Facts, Subject};
pub use test::{Test, TextTest};
pub use words::{NumberField, NumberOperator, TextField, TextOperator, act_word};
