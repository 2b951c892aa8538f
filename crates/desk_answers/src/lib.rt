//! The answers to lines are written, each as one line of compact JSON with its keys in byte order.
#![tactic(auto)]

mod answers;
mod denials;
mod feed;
mod object;
mod told;
mod words;

pub use answers::{answer_text, bad_text, fault_text, reply_text};
pub use denials::denial_text;
pub use words::{word_of_denial, word_of_kind, word_of_state};
