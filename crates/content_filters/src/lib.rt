//! Content filters: conditions on stories, the filters that combine them, and the filters that block every story
//! that they match.
#![tactic(auto)]

mod change;
mod condition;
mod folds;
mod judge;
mod operands;
mod places;
mod table;
mod verdicts;

pub use change::FilterChange;
pub use condition::KeptCondition;
pub use judge::FilterDenial;
pub use table::{Filters, KeptFilter};
pub use verdicts::Verdicts;
