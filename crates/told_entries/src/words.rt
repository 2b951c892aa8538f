//! The words of commands and of what they hold.
ghost use Rattle.std.specs.Prelude.{◌≡◌};
ghost use Rattle.told_entries.specs.Words as said;

use news_types::{Command, Field, Format, How, Op, PubStatus};

/// What a condition reads.
pub(crate) fn field_word(field: Field) -> &'static str
    ensures { result.now ≡ said.field_word field }
{
    match field {
        Field::Slugline => "slugline",
        Field::Headline => "headline",
        Field::Byline => "byline",
        Field::Language => "language",
        Field::Category => "category",
        Field::Body => "body",
        Field::Urgency => "urgency",
        Field::Kind => "kind",
    }
}

/// How a condition compares.
pub(crate) fn op_word(op: Op) -> &'static str
    ensures { result.now ≡ said.op_word op }
{
    match op {
        Op::Eq => "eq",
        Op::Ne => "ne",
        Op::Within => "in",
        Op::Nin => "nin",
        Op::Like => "like",
        Op::NotLike => "notlike",
        Op::StartsWith => "startswith",
        Op::EndsWith => "endswith",
        Op::Lt => "lt",
        Op::Lte => "lte",
        Op::Gt => "gt",
        Op::Gte => "gte",
    }
}

/// The form of a subscriber's feed.
pub(crate) fn format_word(format: Format) -> &'static str
    ensures { result.now ≡ said.format_word format }
{
    match format {
        Format::Ninjs => "ninjs",
        Format::Text7901 => "7901",
    }
}

/// How a product uses its filter.
pub(crate) fn how_word(how: How) -> &'static str
    ensures { result.now ≡ said.how_word how }
{
    match how {
        How::Permitting => "permitting",
        How::Blocking => "blocking",
    }
}

/// Whether what comes in may be used.
pub(crate) fn status_word(status: PubStatus) -> &'static str
    ensures { result.now ≡ said.status_word status }
{
    match status {
        PubStatus::Usable => "usable",
        PubStatus::Withheld => "withheld",
        PubStatus::Canceled => "canceled",
    }
}

/// What a request asks for.
pub(crate) fn command_word(command: &Command) -> &'static str
    ensures { result.now ≡ said.command_word command.now }
{
    match command {
        Command::AddUser { .. } => "add_user",
        Command::SetUser { .. } => "set_user",
        Command::AddDesk { .. } => "add_desk",
        Command::AddStage { .. } => "add_stage",
        Command::SetMember { .. } => "set_member",
        Command::AddCondition { .. } => "add_condition",
        Command::AddFilter { .. } => "add_filter",
        Command::SetFilter { .. } => "set_filter",
        Command::SetBlock { .. } => "set_block",
        Command::AddProduct { .. } => "add_product",
        Command::SetProduct { .. } => "set_product",
        Command::AddSubscriber { .. } => "add_subscriber",
        Command::SetSubscriber { .. } => "set_subscriber",
        Command::Resume { .. } => "resume",
        Command::AddScheme { .. } => "add_scheme",
        Command::AddProvider { .. } => "add_provider",
        Command::Create { .. } => "create",
        Command::Flash { .. } => "flash",
        Command::Lock { .. } => "lock",
        Command::Unlock { .. } => "unlock",
        Command::BreakLock { .. } => "break_lock",
        Command::Edit { .. } => "edit",
        Command::MoveTo { .. } => "move",
        Command::Spike { .. } => "spike",
        Command::Unspike { .. } => "unspike",
        Command::Fetch { .. } => "fetch",
        Command::Publish { .. } => "publish",
        Command::Correct { .. } => "correct",
        Command::Kill { .. } => "kill",
        Command::Recall { .. } => "recall",
        Command::Deschedule { .. } => "deschedule",
        Command::Stop => "stop",
    }
}
