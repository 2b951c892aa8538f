//! What a server counts from its start, shared by the threads that count.
#![tactic(auto)]

#[cfg(test)]
mod tests;
mod watch;

pub use watch::Watch;
