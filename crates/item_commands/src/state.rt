//! The state of an item, and what a command sets it to.
ghost use Rattle.std.specs.Prelude.{◌≡◌, ◌<◌, ◌+◌, ◌^◌, Option, option_map, IfOk};
ghost use Rattle.news_types.specs.Due.{Pub};
ghost use Rattle.news_types.specs.Items.{state_at, state_after, version_after};
ghost use Rattle.news_types.specs.States.{moved};
ghost use Rattle.publications.specs.Keeps.{facts_of};
ghost use Rattle.item_commands.specs.Given.{story_given};

use item_rules::{Action, action_of, next_state};
use item_table::SharedStory;
use news_types::{Command, Memory, Moment, State};
use publications::FirstFacts;
use std::alloc::Global;

/// The state at a moment: what is scheduled counts as published from its release on.
pub fn state_at(moment: Moment, first: Option<FirstFacts>, state: State) -> State
    ensures { (p : Option Pub) → first ≡ option_map facts_of p → result ≡ state_at moment p state }
{
    match (state, first) {
        (State::Scheduled, Some(first)) => {
            if first.release <= moment {
                State::Published
            } else {
                State::Scheduled
            }
        }
        _ => state,
    }
}

/// The state behind an action: without a row it stays.
pub fn moved(action: Action, state: State) -> State
    ensures { result ≡ moved action state }
{
    next_state(state, action).unwrap_or(state)
}

/// The state behind a command.
pub fn state_after(command: &Command, state: State) -> State
    ensures { result ≡ state_after command.now state }
{
    match action_of(command) {
        Some(action) => moved(action, state),
        None => state,
    }
}

/// The version behind a command.
pub fn version_after(command: &Command, version: u32) -> u32
    requires { version < 4294967295 }
    ensures { result ≡ version_after command.now version }
{
    match command {
        Command::Edit { .. }
        | Command::Correct { .. }
        | Command::Kill { .. }
        | Command::Recall { .. } => version + 1,
        _ => version,
    }
}

/// The story that a command gives its item, if it gives one.
pub fn story_given(alloc: Global, command: &Command) -> Result<Option<SharedStory>, Memory>
    ensures { IfOk result (λ story. story ≡ story_given command.now) }
{
    match command {
        Command::Edit { story, .. } | Command::Correct { story, .. } => {
            let shared = SharedStory::of(alloc, story.copy()?)?;
            Ok(Some(shared))
        }
        _ => Ok(None),
    }
}
