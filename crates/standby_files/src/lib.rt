//! What an agency runs over the two files of a standby's store, and what ships it the records of the primary's.
#![tactic(auto)]

mod answering;
mod front;
mod law;
mod listing;
mod opening;
mod reading;
mod run;
mod shipping;
mod standing;
mod telling;

pub use law::{kept_law, sent_law};
pub use opening::open_standby;
pub use run::run_records;
pub use shipping::ship_store;
pub use standing::stand_in;
