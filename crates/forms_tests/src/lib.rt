//! Tests of the forms in which news and frames come and go: wires, items, requests over HTTP, frames and receipts.
//!
//! Most of their rows are lines of `desk_sessions`, `lines_table` and `plain_server`, which the gate runs. Here are those that no
//! input of a program can show.
#![tactic(auto)]

#[cfg(test)]
mod tests;
