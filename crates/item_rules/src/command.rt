//! What a command asks of its item: the item that it names, and the action that it takes with it.
ghost use Rattle.std.specs.Prelude.{◌≡◌};
ghost use Rattle.news_types.specs.Items.{named_item, action_of};

use news_types::{Action, Command};

/// The item that the command names, or 0.
pub fn named_item(command: &Command) -> u32
    ensures { result ≡ named_item command.now }
{
    match command {
        Command::Lock { item, .. }
        | Command::Unlock { item, .. }
        | Command::BreakLock { item }
        | Command::Edit { item, .. }
        | Command::MoveTo { item, .. }
        | Command::Spike { item }
        | Command::Unspike { item, .. }
        | Command::Fetch { item, .. }
        | Command::Publish { item, .. }
        | Command::Correct { item, .. }
        | Command::Kill { item, .. }
        | Command::Recall { item, .. }
        | Command::Deschedule { item } => *item,
        _ => 0,
    }
}

/// The action that the command takes with its item, if it takes one.
pub fn action_of(command: &Command) -> Option<Action>
    ensures { result ≡ action_of command.now }
{
    match command {
        Command::Lock { .. } => Some(Action::Lock),
        Command::Edit { .. } => Some(Action::Edit),
        Command::MoveTo { .. } => Some(Action::Move),
        Command::Spike { .. } => Some(Action::Spike),
        Command::Unspike { .. } => Some(Action::Unspike),
        Command::Fetch { .. } => Some(Action::Fetch),
        Command::Publish { .. } => Some(Action::Publish),
        Command::Correct { .. } => Some(Action::Correct),
        Command::Kill { .. } => Some(Action::Kill),
        Command::Recall { .. } => Some(Action::Recall),
        Command::Deschedule { .. } => Some(Action::Deschedule),
        _ => None,
    }
}
