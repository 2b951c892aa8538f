//! Which action leads an item from which state to which, and which action a command takes with which item.
#![tactic(auto)]

ghost use Rattle.std.specs.Prelude.{◌≡◌};
ghost use Rattle.news_types.specs.States as states;

mod command;

pub use command::{action_of, named_item};
pub use news_types::Action;
use news_types::State;

/// The state to which the action leads an item of this state, or `None` where it may not be done.
///
/// `Release` is the one action that no request asks for: a scheduled item takes it at the moment
/// of its release. `Lock` leads nowhere else, so it only says in which states an item can be locked.
pub fn next_state(state: State, action: Action) -> Option<State>
    ensures { result ≡ states.next_state state action }
{
    match (action, state) {
        (Action::Route, State::Ingested) => Some(State::Routed),
        (Action::Fetch, State::Ingested) => Some(State::Fetched),
        (Action::Edit, State::Draft) => Some(State::Draft),
        (Action::Edit, State::Routed | State::Fetched | State::Submitted | State::InProgress) =>
            Some(State::InProgress),
        (
            Action::Move,
            State::Draft | State::Routed | State::Fetched | State::Submitted | State::InProgress,
        ) => Some(State::Submitted),
        (
            Action::Spike,
            State::Draft | State::Routed | State::Fetched | State::Submitted | State::InProgress,
        ) => Some(State::Spiked),
        (Action::Cancel, State::Ingested | State::Routed) => Some(State::Spiked),
        (Action::Unspike, State::Spiked) => Some(State::Submitted),
        (
            Action::Publish,
            State::Draft | State::Routed | State::Fetched | State::Submitted | State::InProgress,
        ) => Some(State::Scheduled),
        (Action::Release, State::Scheduled) => Some(State::Published),
        (Action::Deschedule, State::Scheduled) => Some(State::InProgress),
        (Action::Correct, State::Published | State::Corrected) => Some(State::Corrected),
        (Action::Kill, State::Published | State::Corrected) => Some(State::Killed),
        (Action::Recall, State::Published | State::Corrected) => Some(State::Recalled),
        (
            Action::Lock,
            State::Draft
            | State::Routed
            | State::Fetched
            | State::Submitted
            | State::InProgress
            | State::Scheduled
            | State::Published
            | State::Corrected,
        ) => Some(state),
        _ => None,
    }
}
