//! What a subscriber runs to hold each frame of its feed once, in order: frames and receipts as
//! bytes, and the receiver.
#![tactic(auto)]

mod frame;
mod law;
mod line;
mod receipt;
mod receiver;

pub use frame::{FirstFrame, first_frame};
pub use law::{frames_law, receipts_law};
pub use line::Line;
pub use receipt::{read_receipt, receipt_line};
pub use receiver::{Receiver, ReceiverFault, Taken};
