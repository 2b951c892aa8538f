//! The words of commands.

use news_types::Command;

/// A command's word, as a line has it in `do`.
pub(crate) fn word_of_command(command: &Command) -> &'static str {
    match command {
        Command::AddUser { .. } => "add_user",
        Command::SetUser { .. } => "set_user",
        Command::AddDesk { .. } => "add_desk",
        Command::AddStage { .. } => "add_stage",
        Command::SetMember { .. } => "set_member",
        Command::AddCondition { .. } => "add_condition",
        Command::AddFilter { .. } => "add_filter",
        Command::SetFilter { .. } => "set_filter",
        Command::SetBlock { .. } => "set_block",
        Command::AddProduct { .. } => "add_product",
        Command::SetProduct { .. } => "set_product",
        Command::AddSubscriber { .. } => "add_subscriber",
        Command::SetSubscriber { .. } => "set_subscriber",
        Command::Resume { .. } => "resume",
        Command::AddScheme { .. } => "add_scheme",
        Command::AddProvider { .. } => "add_provider",
        Command::Create { .. } => "create",
        Command::Flash { .. } => "flash",
        Command::Lock { .. } => "lock",
        Command::Unlock { .. } => "unlock",
        Command::BreakLock { .. } => "break_lock",
        Command::Edit { .. } => "edit",
        Command::MoveTo { .. } => "move",
        Command::Spike { .. } => "spike",
        Command::Unspike { .. } => "unspike",
        Command::Fetch { .. } => "fetch",
        Command::Publish { .. } => "publish",
        Command::Correct { .. } => "correct",
        Command::Kill { .. } => "kill",
        Command::Recall { .. } => "recall",
        Command::Deschedule { .. } => "deschedule",
        Command::Stop => "stop",
    }
}
