//! What a server counts from its start: responses, what providers sent, attempts to deliver, failures of its log.
#![tactic(auto)]

mod counts;

pub use counts::{Attempts, Counts, Outcome, ProviderCount, StatusCount};
