//! What a subscriber runs over its log file: the receiver that the file opens to, and the run over the frames of an input.
#![tactic(auto)]

mod kinds;
mod law;
mod opening;
mod receive;
mod refusal;

pub use law::opened_law;
pub use opening::open_receiver;
pub use receive::receive_frames;
pub use refusal::Refusal;
