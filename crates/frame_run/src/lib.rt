//! The frames of an input are taken one after the other by a receiver, and each is answered by the receipt of what the
//! receiver then holds.
#![tactic(auto)]

mod answering;
mod ending;
mod front;
mod reading;
mod run;

pub use ending::Ending;
pub use reading::answer_frames;
pub use run::run_frames;
