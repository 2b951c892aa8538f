//! What sorts of commands there are.
ghost use Rattle.std.specs.Prelude.{◌≡◌};
ghost use Rattle.item_commands.specs.Sorts.{sort_of};

use news_types::Command;

/// What a command is about. All commands of one sort are denied, prepared and kept in one way.
#[derive(Clone, Copy, PartialEq, Eq)]
pub enum Sort {
    /// Users, desks, stages and members.
    Desks,
    /// Conditions, filters and blocks.
    Filters,
    /// Products and subscribers.
    Products,
    /// Schemes and providers.
    Sources,
    /// A feed is pushed again.
    Resumes,
    /// The newsroom stops.
    Stops,
    /// A desk makes an item.
    Makes,
    /// An item is worked on, and nothing is published or withdrawn.
    Works,
    /// An item is made and published.
    Flashes,
    /// An item is published for the first time.
    Publishes,
    /// What is out is corrected, killed or recalled.
    Follows,
    /// What waits is withdrawn.
    Withdraws,
}

/// The sort of a command.
pub fn sort_of(command: &Command) -> Sort
    ensures { result ≡ sort_of command.now }
{
    match command {
        Command::AddUser { .. }
        | Command::SetUser { .. }
        | Command::AddDesk { .. }
        | Command::AddStage { .. }
        | Command::SetMember { .. } => Sort::Desks,
        Command::AddCondition { .. }
        | Command::AddFilter { .. }
        | Command::SetFilter { .. }
        | Command::SetBlock { .. } => Sort::Filters,
        Command::AddProduct { .. }
        | Command::SetProduct { .. }
        | Command::AddSubscriber { .. }
        | Command::SetSubscriber { .. } => Sort::Products,
        Command::AddScheme { .. } | Command::AddProvider { .. } => Sort::Sources,
        Command::Resume { .. } => Sort::Resumes,
        Command::Stop => Sort::Stops,
        Command::Create { .. } => Sort::Makes,
        Command::Lock { .. }
        | Command::Unlock { .. }
        | Command::BreakLock { .. }
        | Command::Edit { .. }
        | Command::MoveTo { .. }
        | Command::Spike { .. }
        | Command::Unspike { .. }
        | Command::Fetch { .. } => Sort::Works,
        Command::Flash { .. } => Sort::Flashes,
        Command::Publish { .. } => Sort::Publishes,
        Command::Correct { .. } | Command::Kill { .. } | Command::Recall { .. } => Sort::Follows,
        Command::Deschedule { .. } => Sort::Withdraws,
    }
}
