//! Tests of the store, from a name to a room over its two files. Each module has those of one crate.
#![tactic(auto)]

#[cfg(test)]
mod journal_tests;
#[cfg(test)]
mod pair_tests;
#[cfg(test)]
mod room_tests;
#[cfg(test)]
mod standby_tests;
#[cfg(test)]
mod types_tests;
