//! What is asked for in a story.
ghost use Rattle.std.specs.Prelude.{◌≡◌, [], IfOk};
ghost use Rattle.drill_plan.specs.Stories.{story_of, steps_of, session, moment_of};

use crate::named::named;
use crate::setup::desk;
use news_types::{Command, Media, Memory, Moment, Name, Names, Story, Text};
use std::alloc::Global;
use std::collections::VecDeque;

/// The session in which stories are locked.
fn session() -> Name
    ensures { result ≡ session }
{
    named("s")
}

/// The moment of a story, in seconds.
pub(crate) fn moment_of(j: u32) -> Moment
    ensures { result ≡ moment_of j }
{
    1000 + u64::from(j)
}

/// What is asked for in story `j`, of this draw.
pub(crate) fn steps_of(alloc: Global, j: u32, draw: u32) -> Result<VecDeque<Command>, Memory>
    ensures { IfOk result (λ commands. commands.items ≡ steps_of j draw) }
{
    let story = story_of(alloc, j, draw)?;
    let targets = Names::of(Vec::new(alloc));
    let mut commands = VecDeque::new(alloc);
    if draw / 8 % 4 == 3 {
        commands.push_back(Command::Create {
            desk: desk(),
            story,
        })?;
        commands.push_back(Command::Lock {
            item: j,
            session: session(),
        })?;
        commands.push_back(Command::Publish {
            item: j,
            session: session(),
            schedule: None,
            embargo: Some(moment_of(j) + u64::from(draw / 32 % 100)),
            targets,
        })?;
    } else {
        commands.push_back(Command::Flash { story, targets })?;
    }
    Ok(commands)
}

/// Story `j`, of this draw.
fn story_of(alloc: Global, j: u32, draw: u32) -> Result<Story, Memory>
    ensures { IfOk result (λ story. story ≡ story_of j draw) }
{
    let headline = format!(in alloc; "drill {j}")?;
    let body = format!(in alloc; "body {j}")?;
    Ok(Story {
        kind: Media::Text,
        urgency: (draw % 8 + 1) as u8,
        slugline: empty(alloc),
        headline: Text::of(headline),
        byline: empty(alloc),
        language: empty(alloc),
        category: empty(alloc),
        body: Text::of(body),
        html: false,
        copyright: empty(alloc),
    })
}

/// A text of no characters.
fn empty(alloc: Global) -> Text
    ensures { result ≡ [] }
{
    Text::of(String::new(alloc))
}
