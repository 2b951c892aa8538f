//! Questions of the desk.
use news_types::{Name, Names, State};

/// The kinds of things that have names.
#[derive(Clone, Copy, PartialEq, Eq)]
pub enum Register {
    Users,
    Desks,
    Conditions,
    Filters,
    Products,
    Subscribers,
    Schemes,
    Providers,
}

/// What a desk asks.
#[derive(Drop)]
pub enum DeskQuestion {
    /// The newest items whose number is below this one: of all those on a desk, in a state and held by a user, where these
    /// are given.
    Items {
        desk: Option<Name>,
        below: u32,
        state: Option<State>,
        user: Option<Name>,
    },
    /// The things of a kind whose names stand behind this one in byte order, or from the first on.
    Things {
        of: Register,
        after: Option<Name>,
    },
    /// Whom a publication of the item as it is would reach, with these targets, and what keeps it from the others.
    Reach {
        item: u32,
        targets: Names,
    },
    /// The publications of the item whose numbers are above this one, and what becomes of each for those to whom it is due.
    Publications {
        item: u32,
        after: u32,
    },
}
