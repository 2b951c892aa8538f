//! The state behind each action, of an item of each state.

use item_rules::{Action, next_state};
use news_types::State;

const STATES: &[State] = &[
    State::Draft,
    State::Ingested,
    State::Routed,
    State::Fetched,
    State::Submitted,
    State::InProgress,
    State::Spiked,
    State::Scheduled,
    State::Published,
    State::Corrected,
    State::Killed,
    State::Recalled,
];

const ACTIONS: &[Action] = &[
    Action::Route,
    Action::Fetch,
    Action::Edit,
    Action::Move,
    Action::Spike,
    Action::Cancel,
    Action::Unspike,
    Action::Publish,
    Action::Release,
    Action::Deschedule,
    Action::Correct,
    Action::Kill,
    Action::Recall,
    Action::Lock,
];

/// Each action that may be done, with the state before and behind it.
const ROWS: &[(Action, State, State)] = &[
    (Action::Route, State::Ingested, State::Routed),
    (Action::Fetch, State::Ingested, State::Fetched),
    (Action::Edit, State::Draft, State::Draft),
    (Action::Edit, State::Routed, State::InProgress),
    (Action::Edit, State::Fetched, State::InProgress),
    (Action::Edit, State::Submitted, State::InProgress),
    (Action::Edit, State::InProgress, State::InProgress),
    (Action::Move, State::Draft, State::Submitted),
    (Action::Move, State::Routed, State::Submitted),
    (Action::Move, State::Fetched, State::Submitted),
    (Action::Move, State::Submitted, State::Submitted),
    (Action::Move, State::InProgress, State::Submitted),
    (Action::Spike, State::Draft, State::Spiked),
    (Action::Spike, State::Routed, State::Spiked),
    (Action::Spike, State::Fetched, State::Spiked),
    (Action::Spike, State::Submitted, State::Spiked),
    (Action::Spike, State::InProgress, State::Spiked),
    (Action::Cancel, State::Ingested, State::Spiked),
    (Action::Cancel, State::Routed, State::Spiked),
    (Action::Unspike, State::Spiked, State::Submitted),
    (Action::Publish, State::Draft, State::Scheduled),
    (Action::Publish, State::Routed, State::Scheduled),
    (Action::Publish, State::Fetched, State::Scheduled),
    (Action::Publish, State::Submitted, State::Scheduled),
    (Action::Publish, State::InProgress, State::Scheduled),
    (Action::Release, State::Scheduled, State::Published),
    (Action::Deschedule, State::Scheduled, State::InProgress),
    (Action::Correct, State::Published, State::Corrected),
    (Action::Correct, State::Corrected, State::Corrected),
    (Action::Kill, State::Published, State::Killed),
    (Action::Kill, State::Corrected, State::Killed),
    (Action::Recall, State::Published, State::Recalled),
    (Action::Recall, State::Corrected, State::Recalled),
    (Action::Lock, State::Draft, State::Draft),
    (Action::Lock, State::Routed, State::Routed),
    (Action::Lock, State::Fetched, State::Fetched),
    (Action::Lock, State::Submitted, State::Submitted),
    (Action::Lock, State::InProgress, State::InProgress),
    (Action::Lock, State::Scheduled, State::Scheduled),
    (Action::Lock, State::Published, State::Published),
    (Action::Lock, State::Corrected, State::Corrected),
];

fn row_of(action: Action, from: State) -> Option<State> {
    for (done, before, behind) in ROWS {
        if *done == action && *before == from {
            return Some(*behind);
        }
    }
    None
}

/// The first state that an action leads elsewhere from.
fn first_other(action: Action, states: &[State]) -> Option<State> {
    for from in states {
        if next_state(*from, action) != row_of(action, *from) {
            return Some(*from);
        }
    }
    None
}

/// The first of these actions that leads elsewhere, with the state that it does so from.
fn first_wrong(actions: &[Action]) -> Option<(Action, State)> {
    for action in actions {
        if let Some(from) = first_other(*action, STATES) {
            return Some((*action, from));
        }
    }
    None
}

#[test]
fn each_state_and_action(rt: HostRuntime) {
    assert_eq!(rt; first_wrong(ACTIONS), None);
}
