//! The members of a package, and of which members a package can be made.
#![tactic(auto)]

mod member;

pub use member::{MOST_MEMBERS, Member, Members, makes_package};
