//! The tables that commands alone change: users and desks, filters, products and subscribers, schemes and providers, and the
//! names of all of them in order.
#![tactic(auto)]

mod ask;
mod deny;
mod due;
mod ingest;
mod judge;
mod listed;
mod reach;
mod route;
mod rules;
mod sources;

pub use ingest::PlaceChange;
pub use route::Routed;
pub use rules::{RuleChange, Rules};
