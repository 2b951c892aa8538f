//! Tests of what stands around a room: workers and their links, a receiver's file, the words of the program, and its meter.
#![tactic(auto)]

#[cfg(test)]
mod closing_tests;
#[cfg(test)]
mod link_tests;
#[cfg(test)]
mod progress_tests;
#[cfg(test)]
mod receiver_tests;
#[cfg(test)]
mod rooms;
#[cfg(test)]
mod turn_tests;
#[cfg(test)]
mod words_tests;
