//! A denial of each kind.

use news_types::{Denial, Holder, Name, Privilege, State, Thing};

/// The denials in the order of their numbers: `desk` is one that the caller is no member of, and `holder` holds the item.
pub(crate) fn denials(desk: Name, holder: Holder) -> [Denial; 19] {
    let Holder { user, session } = holder;
    let release = 1_893_456_000;
    [
        Denial::OutOfTurn { expected: 2 },
        Denial::NumberUsed { kept: 7 },
        Denial::UnknownUser,
        Denial::NoPrivilege {
            privilege: Privilege::Write,
        },
        Denial::UnknownThing {
            thing: Thing::Subscriber,
        },
        Denial::NameTaken,
        Denial::NotMember { desk },
        Denial::WrongState {
            state: State::InProgress,
        },
        Denial::NotLocked,
        Denial::LockedBy { user, session },
        Denial::NotReleased { release },
        Denial::AlreadyReleased { release },
        Denial::BothTimes,
        Denial::PastMoment { moment: release },
        Denial::ReceiptAhead { length: 3 },
        Denial::NotPaused,
        Denial::FilterOrder,
        Denial::BadOperand,
        Denial::Limit {
            which: Thing::Stage,
            number: 64,
        },
    ]
}
