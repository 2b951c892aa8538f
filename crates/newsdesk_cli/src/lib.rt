//! The calls of the program: what a command line does, over the input, the output, the files and the clock that it is given.
#![tactic(auto)]

mod archive;
mod ask;
mod audit;
mod check;
mod command;
mod contents;
mod digest;
mod import;
mod ingest;
mod limits;
mod opening;
mod pack;
mod package;
mod standby;
mod telling;
mod why;

pub use command::run;
