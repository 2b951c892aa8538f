//! Tests of the program's commands over files in memory, where a call outside fails, or where all ends behind it.
#![tactic(auto)]

#[cfg(test)]
mod command_tests;
#[cfg(test)]
mod commands;
#[cfg(test)]
mod report_tests;
#[cfg(test)]
mod script_tests;
#[cfg(test)]
mod stream_tests;
#[cfg(test)]
mod tearing_tests;
