//! What an entry says of the publication that it made.
ghost use Rattle.std.specs.Prelude.{◌≡◌, ℕ, IfOk, None};
ghost use Rattle.news_types.specs.declared.entry.Act.TheVariants.{Request};
ghost use Rattle.news_types.specs.Names.{Bytes};
ghost use Rattle.news_types.specs.History.{History};
ghost use Rattle.news_types.specs.Due.{Pub};
ghost use Rattle.news_types.specs.Items.{made_by};
ghost use Rattle.newsroom.specs.Stands.{Stands, StandsFor};
ghost use Rattle.feed_reasons.specs.Reasons.{had_before};
ghost use Rattle.list_runs.specs.Making.{IsMade, terms_of};

use news_types::{Act, Command, Entry, Kind, Memory, Moment, Name, Names};
use newsroom::Newsroom;
use std::alloc::Global;
use story_tables::Issue;

/// The targets of a publication, and whether something of its item was due to a subscriber before, as far as its kind asks that.
#[derive(Drop)]
pub(crate) struct Terms {
    pub(crate) targets: Names,
    pub(crate) had: bool,
}

/// What the entry says of the publication that it made behind the newsroom's list.
pub(crate) fn terms_of(
    alloc: Global,
    newsroom: &Newsroom,
    entry: &Entry,
    subscriber: &Name,
) -> Result<Terms, Memory>
    requires { Stands newsroom.now }
    ensures { IfOk result (λ terms. (g : History) (p : Pub) → StandsFor newsroom.now g → IsMade g entry.now.moment entry.now.act p → terms ≡ terms_of g subscriber.now p) }
{
    match &entry.act {
        Act::Request { command, .. } => {
            terms_of_command(newsroom, command, entry.moment, subscriber)
        }
        _ => Ok(Terms {
            targets: Names::of(Vec::new(alloc)),
            had: false,
        }),
    }
}

/// The same of a command at a moment.
fn terms_of_command(
    newsroom: &Newsroom,
    command: &Command,
    moment: Moment,
    subscriber: &Name,
) -> Result<Terms, Memory>
    requires { Stands newsroom.now }
    ensures { IfOk result (λ terms. (g : History) (caller : Bytes) (number : ℕ) (p : Pub) → StandsFor newsroom.now g → IsMade g moment (Request caller number command.now) p
        → terms ≡ terms_of g subscriber.now p) }
{
    match command {
        Command::Flash { targets, .. } => Ok(Terms {
            targets: targets.copy()?,
            had: false,
        }),
        _ => terms_of_issue(newsroom, command, moment, subscriber),
    }
}

/// The same of a command that publishes an item that is there.
fn terms_of_issue(
    newsroom: &Newsroom,
    command: &Command,
    moment: Moment,
    subscriber: &Name,
) -> Result<Terms, Memory>
    requires { Stands newsroom.now }
    ensures { IfOk result (λ terms. (g : History) (caller : Bytes) (number : ℕ) (p : Pub) → StandsFor newsroom.now g → made_by command.now ≡ None → IsMade g moment (Request caller number command.now) p
        → terms ≡ terms_of g subscriber.now p) }
{
    let Some(issue) = newsroom.stories().issue(command, moment)? else {
        return Err(Memory);
    };
    let had = had_before(newsroom, &issue, subscriber)?;
    Ok(Terms {
        targets: issue.targets,
        had,
    })
}

/// Whether something of its item was due before: for a first publication that is not asked.
fn had_before(newsroom: &Newsroom, issue: &Issue, subscriber: &Name) -> Result<bool, Memory>
    ensures { IfOk result (λ had. (g : History) → StandsFor newsroom.now g → had ≡ had_before g issue.now.kind issue.now.item issue.now.release subscriber.now) }
{
    match issue.kind {
        Kind::First => Ok(false),
        _ => {
            let names = newsroom.stories().reached(issue)?;
            Ok(subscriber.is_among(names.as_slice()))
        }
    }
}
