//! The metrics of a server, in the text format of Prometheus, version 0.0.4.
#![tactic(auto)]

mod family;
mod feeds;
mod gauges;
mod measured;
mod room;
mod since;
mod text;
mod written;

pub use room::metrics_text;
