//! A ticket lock around one value that stands for a list of entries, as a room does.
//!
//! The lock has one history, which only grows: each turn lends the value where it stands for that
//! history, and what the turn adds stands behind it. A [`Pass`] is the right to take turns. Contracts
//! see in it the part of the history that its owner has seen, its front, and the turns that it took,
//! its calls. Two passes that meet again have fronts of which one begins the other, and calls of which
//! no two overlap.
//!
//! Fronts and calls count the entries since the lock was made. What the value stood for then, each
//! such book with [`Shared::base`] entries, lies before them.
#![tactic(auto)]

mod gate;
mod pass;
mod rule;
mod shared;
mod turn;
mod view;
mod work;

pub use pass::Pass;
pub use shared::Shared;
pub use view::Call;
pub use work::Work;
