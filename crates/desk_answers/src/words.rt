//! The words of answers.
ghost use Rattle.std.specs.Prelude.{◌≡◌};
ghost use Rattle.desk_answers.specs.Words.{kind_word, state_word, privilege_word, thing_word, denial_word, denial_number, feed_state_word};

use news_types::{Denial, FeedState, Kind, Privilege, State, Thing};

/// The word of what a publication is: `first`, `correct`, `kill` or `recall`.
pub fn word_of_kind(kind: Kind) -> &'static str
    ensures { result.now ≡ kind_word kind }
{
    match kind {
        Kind::First => "first",
        Kind::Correct => "correct",
        Kind::Kill => "kill",
        Kind::Recall => "recall",
    }
}

/// The state of an item, as it is written.
pub fn word_of_state(state: State) -> &'static str
    ensures { result.now ≡ state_word state }
{
    match state {
        State::Draft => "draft",
        State::Ingested => "ingested",
        State::Routed => "routed",
        State::Fetched => "fetched",
        State::Submitted => "submitted",
        State::InProgress => "in_progress",
        State::Spiked => "spiked",
        State::Scheduled => "scheduled",
        State::Published => "published",
        State::Corrected => "corrected",
        State::Killed => "killed",
        State::Recalled => "recalled",
    }
}

pub(crate) fn word_of_privilege(privilege: Privilege) -> &'static str
    ensures { result.now ≡ privilege_word privilege }
{
    match privilege {
        Privilege::Users => "users",
        Privilege::Desks => "desks",
        Privilege::Filters => "filters",
        Privilege::Subscribers => "subscribers",
        Privilege::Ingest => "ingest",
        Privilege::Write => "write",
        Privilege::Publish => "publish",
        Privilege::Kill => "kill",
        Privilege::Unlock => "unlock",
        Privilege::Stop => "stop",
    }
}

pub(crate) fn word_of_thing(thing: Thing) -> &'static str
    ensures { result.now ≡ thing_word thing }
{
    match thing {
        Thing::User => "user",
        Thing::Desk => "desk",
        Thing::Stage => "stage",
        Thing::Condition => "condition",
        Thing::Filter => "filter",
        Thing::Product => "product",
        Thing::Subscriber => "subscriber",
        Thing::Scheme => "scheme",
        Thing::Provider => "provider",
        Thing::Item => "item",
        Thing::Publication => "publication",
    }
}

/// A denial's own name.
pub fn word_of_denial(denial: &Denial) -> &'static str
    ensures { result.now ≡ denial_word denial.now }
{
    match denial {
        Denial::OutOfTurn { .. } => "OutOfTurn",
        Denial::NumberUsed { .. } => "NumberUsed",
        Denial::UnknownUser => "UnknownUser",
        Denial::NoPrivilege { .. } => "NoPrivilege",
        Denial::UnknownThing { .. } => "UnknownThing",
        Denial::NameTaken => "NameTaken",
        Denial::NotMember { .. } => "NotMember",
        Denial::WrongState { .. } => "WrongState",
        Denial::NotLocked => "NotLocked",
        Denial::LockedBy { .. } => "LockedBy",
        Denial::NotReleased { .. } => "NotReleased",
        Denial::AlreadyReleased { .. } => "AlreadyReleased",
        Denial::BothTimes => "BothTimes",
        Denial::PastMoment { .. } => "PastMoment",
        Denial::ReceiptAhead { .. } => "ReceiptAhead",
        Denial::NotPaused => "NotPaused",
        Denial::FilterOrder => "FilterOrder",
        Denial::BadOperand => "BadOperand",
        Denial::Limit { .. } => "Limit",
    }
}

/// A denial's place in the order in which the reasons are asked.
pub(crate) fn number_of_denial(denial: &Denial) -> u64
    ensures { result ≡ denial_number denial.now }
{
    match denial {
        Denial::OutOfTurn { .. } => 1,
        Denial::NumberUsed { .. } => 2,
        Denial::UnknownUser => 3,
        Denial::NoPrivilege { .. } => 4,
        Denial::UnknownThing { .. } => 5,
        Denial::NameTaken => 6,
        Denial::NotMember { .. } => 7,
        Denial::WrongState { .. } => 8,
        Denial::NotLocked => 9,
        Denial::LockedBy { .. } => 10,
        Denial::NotReleased { .. } => 11,
        Denial::AlreadyReleased { .. } => 12,
        Denial::BothTimes => 13,
        Denial::PastMoment { .. } => 14,
        Denial::ReceiptAhead { .. } => 15,
        Denial::NotPaused => 16,
        Denial::FilterOrder => 17,
        Denial::BadOperand => 18,
        Denial::Limit { .. } => 19,
    }
}

/// How a feed fares, as it is written.
pub(crate) fn word_of_feed_state(state: FeedState) -> &'static str
    ensures { result.now ≡ feed_state_word state }
{
    match state {
        FeedState::Paused => "paused",
        FeedState::Retrying => "retrying",
        FeedState::Pending => "pending",
        FeedState::Waiting => "waiting",
        FeedState::Success => "success",
    }
}
