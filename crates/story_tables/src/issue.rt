//! What commands publish of items that are there: publish, correct, kill and recall.
ghost use Rattle.std.specs.Prelude.{◌≡◌, None, Some, IfOk, option_map, unwrap_or};
ghost use Rattle.news_types.specs.Names.{Bytes, is_in};
ghost use Rattle.news_types.specs.History.{History};
ghost use Rattle.news_types.specs.Items.{made_by};
ghost use Rattle.news_types.specs.Items as items;
ghost use Rattle.news_types.specs.Publications.{issued_by_command, made, noted, standing};
ghost use Rattle.news_types.specs.Due.{release_to, latest, given_by};
ghost use Rattle.news_types.specs.Publications as published;
ghost use Rattle.news_types.specs.declared.words.Kind.TheVariants as kind;
ghost use Rattle.story_tables.specs.Issued.{issued_of, is_reached};
ghost use Rattle.publish_queue.specs.Many.{names_in};
ghost use Rattle.story_tables.specs.Keeps.{KeepsStories, HasPlace};

use crate::stories::Stories;
use item_commands::{named_item, version_after};
use item_table::SharedStory;
use news_types::{Command, Due, Kind, Memory, Moment, Names, Story, Text};
use release_rules::release;
use std::alloc::Global;

/// What a command publishes of an item that is there.
#[derive(Drop)]
pub struct Issue {
    pub item: u32,
    /// The item's version behind the command.
    pub version: u32,
    pub kind: Kind,
    pub release: Moment,
    pub targets: Names,
    pub story: SharedStory,
}

impl Stories {
    /// What the command publishes at the moment of an item that is there. Nothing where the item is not there, or the command
    /// publishes none.
    pub fn issue(&self, command: &Command, moment: Moment) -> Result<Option<Issue>, Memory>
        requires { HasPlace self.now }
        ensures { IfOk result (λ issue. (h : History) (caller : Bytes) → KeepsStories self.now h → made_by command.now ≡ None → issue ≡ issued_of (issued_by_command (made h) moment caller command.now)) }
    {
        match command {
            Command::Publish {
                item,
                schedule,
                embargo,
                targets,
                ..
            } => {
                let release = release(moment, *schedule, *embargo);
                self.issue_first(command, *item, targets, release)
            }
            Command::Correct { item, story, .. } => {
                self.issue_corrected(command, *item, story, moment)
            }
            Command::Kill { item, note, .. } => {
                self.issue_noted(command, *item, Kind::Kill, note, moment)
            }
            Command::Recall { item, note, .. } => {
                self.issue_noted(command, *item, Kind::Recall, note, moment)
            }
            _ => Ok(None),
        }
    }

    // The first publication of an item, whose story it shares.
    fn issue_first(
        &self,
        command: &Command,
        item: u32,
        targets: &Names,
        release: Moment,
    ) -> Result<Option<Issue>, Memory>
        requires { HasPlace self.now }
        ensures { IfOk result (λ issue. (h : History) → KeepsStories self.now h → item ≡ items.named_item command.now
            → issue ≡ option_map (λ (it : items.Item). record { item = item; version = items.version_after command.now it.version; kind = kind.First; release = release; targets = targets.now; story = it.story }) (published.item h item)) }
    {
        let Some(story) = self.items.story(item) else {
            return Ok(None);
        };
        let story = story.share()?;
        let targets = targets.copy()?;
        Ok(self.issue_with(command, Kind::First, release, targets, story))
    }

    // A correction of an item, with this story.
    fn issue_corrected(
        &self,
        command: &Command,
        item: u32,
        story: &Story,
        moment: Moment,
    ) -> Result<Option<Issue>, Memory>
        requires { HasPlace self.now }
        ensures { IfOk result (λ issue. (h : History) → KeepsStories self.now h → item ≡ items.named_item command.now
            → issue ≡ option_map (λ (it : items.Item). record { item = item; version = items.version_after command.now it.version; kind = kind.Correct; release = moment; targets = published.first_targets (made h) item; story = story.now }) (published.item h item)) }
    {
        let story = SharedStory::of(self.alloc, story.copy()?)?;
        let targets = self.targets(item)?;
        Ok(self.issue_with(command, Kind::Correct, moment, targets, story))
    }

    // What takes back an item: its story with a note as its body.
    fn issue_noted(
        &self,
        command: &Command,
        item: u32,
        kind: Kind,
        note: &Text,
        moment: Moment,
    ) -> Result<Option<Issue>, Memory>
        requires { HasPlace self.now }
        ensures { IfOk result (λ issue. (h : History) → KeepsStories self.now h → item ≡ items.named_item command.now
            → issue ≡ option_map (λ (it : items.Item). record { item = item; version = items.version_after command.now it.version; kind = kind; release = moment; targets = published.first_targets (made h) item; story = noted (Some note.now) it.story }) (published.item h item)) }
    {
        let Some(story) = self.items.story(item) else {
            return Ok(None);
        };
        let story = noted(story.as_story(), note)?;
        let story = SharedStory::of(self.alloc, story)?;
        let targets = self.targets(item)?;
        Ok(self.issue_with(command, kind, moment, targets, story))
    }

    // What is published of the item that a command names, with this story.
    fn issue_with(
        &self,
        command: &Command,
        kind: Kind,
        release: Moment,
        targets: Names,
        story: SharedStory,
    ) -> Option<Issue>
        requires { HasPlace self.now }
        ensures { (h : History) → KeepsStories self.now h
            → result ≡ option_map (λ (it : items.Item). record { item = items.named_item command.now; version = items.version_after command.now it.version; kind = kind; release = release; targets = targets; story = story }) (published.item h (items.named_item command.now)) }
    {
        let item = named_item(command);
        let facts = self.items.facts(item)?;
        Some(Issue {
            item,
            version: version_after(command, facts.version),
            kind,
            release,
            targets,
            story,
        })
    }

    /// The names of those whom it reaches whatever is permitted: of a correction those to whom something of its item is due,
    /// of a kill or a recall those to whom something of it is released by then.
    pub fn reached(&self, issue: &Issue) -> Result<Names, Memory>
        ensures { IfOk result (λ names. (h : History) → KeepsStories self.now h → (s : Bytes) → is_in s names ≡ is_reached (standing h) issue.now.kind issue.now.item issue.now.release s) }
    {
        let soonest = self.publications.soonest(issue.item);
        match issue.kind {
            Kind::First | Kind::Correct => names_in(self.alloc, soonest),
            Kind::Kill | Kind::Recall => names_by(self.alloc, soonest, issue.release),
        }
    }

    /// The latest releases of what stands of its item, for each to whom something of it is due.
    pub fn latest(&self, issue: &Issue) -> &[Due]
        ensures { (h : History) → KeepsStories self.now h → (s : Bytes) → unwrap_or (release_to s result.now) 0 ≡ latest (standing h) issue.now.item s }
    {
        self.publications.newest(issue.item)
    }

    // The targets of an item's standing first publication.
    fn targets(&self, item: u32) -> Result<Names, Memory>
        ensures { IfOk result (λ targets. (h : History) → KeepsStories self.now h → targets ≡ published.first_targets (made h) item) }
    {
        let targets = Vec::from_slice(self.alloc, self.publications.targets(item))?;
        Ok(Names::of(targets))
    }
}

/// To whom something is due.
fn names_in(alloc: Global, due: &[Due]) -> Result<Names, Memory>
    ensures { IfOk result (λ names. names ≡ names_in due.now) }
{
    let mut names = Vec::new(alloc);
    for one in due {
        names.push(one.subscriber)?;
    }
    Ok(Names::of(names))
}

/// To whom it is released by the moment.
fn names_by(alloc: Global, due: &[Due], moment: Moment) -> Result<Names, Memory>
    ensures { IfOk result (λ names. names ≡ names_in (given_by moment due.now)) }
{
    let mut names = Vec::new(alloc);
    for one in due {
        if one.release <= moment {
            names.push(one.subscriber)?;
        }
    }
    Ok(Names::of(names))
}

/// The story with a note as its body.
fn noted(story: &Story, note: &Text) -> Result<Story, Memory>
    ensures { IfOk result (λ told. told ≡ noted (Some note.now) story.now) }
{
    Ok(Story {
        kind: story.kind,
        urgency: story.urgency,
        slugline: story.slugline.copy()?,
        headline: story.headline.copy()?,
        byline: story.byline.copy()?,
        language: story.language.copy()?,
        category: story.category.copy()?,
        body: note.copy()?,
        html: false,
        copyright: story.copyright.copy()?,
    })
}
