//! Desks: users and what they may do, desks with their stages and members, where each item stands and who holds it.
#![tactic(auto)]

mod change;
mod command;
mod item;
mod judge;
mod on_desk;
mod places;
mod seats;
mod step;
mod table;
mod users;

pub use change::DeskChange;
pub use table::Desks;
