//! Tests of the bytes of entries and of segments.
//!
//! Bytes that are no entry and no segment are logs and sides of `desk_sessions`, which the gate runs. Here is what is counted by hand, and
//! read and written again.
#![tactic(auto)]

#[cfg(test)]
mod tests;
