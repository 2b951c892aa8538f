//! What is asked of the caller of a command.
ghost use Rattle.std.specs.Prelude.{◌≡◌};
ghost use Rattle.news_types.specs.Denial.{privilege_of};

use news_types::{Command, Privilege};

/// The privilege without which nobody may give the command.
pub(crate) fn privilege_of(command: &Command) -> Privilege
    ensures { result ≡ privilege_of command.now }
{
    match command {
        Command::AddUser { .. } | Command::SetUser { .. } => Privilege::Users,
        Command::AddDesk { .. } | Command::AddStage { .. } | Command::SetMember { .. } => {
            Privilege::Desks
        }
        Command::AddCondition { .. }
        | Command::AddFilter { .. }
        | Command::SetFilter { .. }
        | Command::SetBlock { .. } => Privilege::Filters,
        Command::AddProduct { .. }
        | Command::SetProduct { .. }
        | Command::AddSubscriber { .. }
        | Command::SetSubscriber { .. }
        | Command::Resume { .. } => Privilege::Subscribers,
        Command::AddScheme { .. } | Command::AddProvider { .. } => Privilege::Ingest,
        Command::Create { .. }
        | Command::Lock { .. }
        | Command::Unlock { .. }
        | Command::Edit { .. }
        | Command::MoveTo { .. }
        | Command::Spike { .. }
        | Command::Unspike { .. }
        | Command::Fetch { .. } => Privilege::Write,
        Command::Flash { .. }
        | Command::Publish { .. }
        | Command::Correct { .. }
        | Command::Deschedule { .. } => Privilege::Publish,
        Command::BreakLock { .. } => Privilege::Unlock,
        Command::Kill { .. } | Command::Recall { .. } => Privilege::Kill,
        Command::Stop => Privilege::Stop,
    }
}
