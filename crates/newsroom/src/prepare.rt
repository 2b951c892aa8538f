//! Requests that are accepted: their memory is taken first, and they are kept later without any.
ghost use Rattle.std.specs.Prelude.{◌≡◌, ◌<◌, ◌≤◌, ◌∷◌, ℕ, true, IfOk, None, Some, length, if◌then◌else◌};
ghost use Rattle.news_types.specs.Names.{Bytes};
ghost use Rattle.news_types.specs.History.{History, moment as last_moment, is_stop_command};
ghost use Rattle.news_types.specs.declared.entry.Act.TheVariants.{Request};
ghost use Rattle.news_types.specs.declared.command.Command.{Command};
ghost use Rattle.news_types.specs.Denial.{operand_denial};
ghost use Rattle.news_types.specs.Legal.{IsLegal};
ghost use Rattle.news_types.specs.Publications.{issued_by_command, made};
ghost use Rattle.news_types.specs.Outcome.{reply_to, entry_of};
ghost use Rattle.newsroom.specs.Stands.{StandsFor, Stands, store_of};
ghost use Rattle.news_types.specs.declared.command.Command.TheVariants as command;
ghost use Rattle.story_tables.specs.Issued.{issues, issued_of};
ghost use Rattle.newsroom.specs.Changes.{HasStoryRoom, IsForStory, HasRequestRoom, IsForRequest};

use crate::callers::{self, Last};
use crate::change::{RequestChange, StoryChange};
use crate::newsroom::Newsroom;
use crate::records::prepare_issued;
use news_types::{Command, Kind, Memory, Moment, Name, Names, Reply, Story};
use story_tables::Issue;

impl Newsroom {
    // Takes the memory for a request that is accepted.
    pub(crate) fn take_memory(
        &mut self,
        caller: &Name,
        number: u64,
        command: &Command,
        moment: Moment,
    ) -> Result<RequestChange, Memory>
        requires stands { Stands self.old }
        requires operands { operand_denial command.now ≡ None }
        ensures stays { (h : History) → StandsFor self.old h → StandsFor self.new h }
        ensures store { store_of self.new ≡ store_of self.old }
        ensures room { IfOk result (λ change. HasRequestRoom self.new change) }
        ensures change { (h : History) → StandsFor self.old h → IsLegal (entry_of moment (Request caller.now number command.now) ∷ h) → IfOk result (λ change. IsForRequest change moment caller.now number command.now h) }
    {
        let StoryChange { parts, dues } = self.prepare_parts(command, moment)?;
        let rules = self.rules.prepare(caller, command)?;
        callers::reserve_one(&mut self.callers)?;
        let last = Last {
            number,
            command: command.copy()?,
            reply: parts.reply(),
        };
        Ok(RequestChange {
            parts,
            dues,
            rules,
            stops: is_stop(command),
            caller: *caller,
            last,
        })
    }

    // Takes the memory for what a command does to items, publications and feeds, and to what is due.
    fn prepare_parts(&mut self, command: &Command, moment: Moment) -> Result<StoryChange, Memory>
        requires stands { Stands self.old }
        ensures stays { (h : History) → StandsFor self.old h → StandsFor self.new h }
        ensures store { store_of self.new ≡ store_of self.old }
        ensures room { IfOk result (λ change. HasStoryRoom self.new change) }
        ensures change { (h : History) (caller : Bytes) (number : ℕ) → StandsFor self.old h → IsLegal (entry_of moment (Request caller number command.now) ∷ h) → IfOk result (λ change. IsForStory change moment (Request caller number command.now) h) }
    {
        match command {
            Command::Flash { story, targets } => self.prepare_flash(story, targets, moment),
            Command::Deschedule { item } => self.prepare_deschedule(*item, moment),
            Command::Publish { .. }
            | Command::Correct { .. }
            | Command::Kill { .. }
            | Command::Recall { .. } => self.prepare_publication(command, moment),
            _ => self.prepare_silent(command, moment),
        }
    }

    // Takes the memory for a flash.
    fn prepare_flash(
        &mut self,
        story: &Story,
        targets: &Names,
        moment: Moment,
    ) -> Result<StoryChange, Memory>
        requires stands { Stands self.old }
        ensures stays { (h : History) → StandsFor self.old h → StandsFor self.new h }
        ensures store { store_of self.new ≡ store_of self.old }
        ensures room { IfOk result (λ change. HasStoryRoom self.new change) }
        ensures change { (h : History) (caller : Bytes) (number : ℕ) → StandsFor self.old h → last_moment h ≤ moment → IfOk result (λ change. IsForStory change moment (Request caller number (command.Flash story.now targets.now)) h) }
    {
        let due = self
            .rules
            .due_list(story, targets.as_slice(), &[], Kind::First)?;
        let names = due.as_slice();
        let releases = self
            .rules
            .releases(self.alloc, names, &[], Kind::First, moment)?;
        let dues = self.dues.prepare_publication(&releases)?;
        let parts = self
            .stories
            .prepare_flash(story, targets, releases, moment, self.entries)?;
        Ok(StoryChange { parts, dues })
    }

    // Takes the memory for a command that publishes an item. One that is not there publishes nothing.
    fn prepare_publication(
        &mut self,
        command: &Command,
        moment: Moment,
    ) -> Result<StoryChange, Memory>
        requires stands { Stands self.old }
        ensures stays { (h : History) → StandsFor self.old h → StandsFor self.new h }
        ensures store { store_of self.new ≡ store_of self.old }
        ensures room { IfOk result (λ change. HasStoryRoom self.new change) }
        ensures change { (h : History) (caller : Bytes) (number : ℕ) → StandsFor self.old h → issues command.now ≡ true → IsLegal (entry_of moment (Request caller number command.now) ∷ h)
            → IfOk result (λ change. IsForStory change moment (Request caller number command.now) h) }
    {
        let Some(issue) = self.stories.issue(command, moment)? else {
            return self.prepare_silent(command, moment);
        };
        self.prepare_issue(command, issue, moment)
    }

    // Takes the memory for what a command publishes of an item that is there, and finds to whom it is due.
    fn prepare_issue(
        &mut self,
        command: &Command,
        issue: Issue,
        moment: Moment,
    ) -> Result<StoryChange, Memory>
        requires stands { Stands self.old }
        ensures stays { (h : History) → StandsFor self.old h → StandsFor self.new h }
        ensures store { store_of self.new ≡ store_of self.old }
        ensures room { IfOk result (λ change. HasStoryRoom self.new change) }
        ensures change { (h : History) (caller : Bytes) (number : ℕ) → StandsFor self.old h → issues command.now ≡ true → IsLegal (entry_of moment (Request caller number command.now) ∷ h)
            → Some issue ≡ issued_of (issued_by_command (made h) moment caller command.now) → IfOk result (λ change. IsForStory change moment (Request caller number command.now) h) }
    {
        let reached = self.stories.reached(&issue)?;
        let due = self.rules.due_list(
            issue.story.as_story(),
            issue.targets.as_slice(),
            reached.as_slice(),
            issue.kind,
        )?;
        let names = due.as_slice();
        let latest = self.stories.latest(&issue);
        let releases = self
            .rules
            .releases(self.alloc, names, latest, issue.kind, issue.release)?;
        let numbers = self.stories.numbers(issue.item);
        let dues = prepare_issued(&mut self.dues, &issue, &releases, numbers, moment)?;
        let parts = self
            .stories
            .prepare_issue(command, issue, releases, moment, self.entries)?;
        Ok(StoryChange { parts, dues })
    }

    // Keeps a request. It takes no memory.
    pub(crate) fn keep_request(&mut self, change: RequestChange) -> Reply
        requires stands { (h : History) × (m : ℕ) × (caller : Bytes) × (number : ℕ) × (command : Command) × (StandsFor self.old h × IsForRequest change m caller number command h × (length h < 4294967295)) }
        requires memory { HasRequestRoom self.old change }
        ensures stands { (h : History) (m : ℕ) (caller : Bytes) (number : ℕ) (command : Command) → StandsFor self.old h → IsForRequest change m caller number command h
            → StandsFor self.new (entry_of m (Request caller number command) ∷ h) }
        ensures store { store_of self.new ≡ store_of self.old }
        ensures reply { (h : History) (m : ℕ) (caller : Bytes) (number : ℕ) (command : Command) → StandsFor self.old h → IsForRequest change m caller number command h
            → result ≡ reply_to h m (Request caller number command) }
    {
        let RequestChange {
            parts,
            dues,
            rules,
            stops,
            caller,
            last,
        } = change;
        self.rules.commit(rules);
        self.dues.commit(dues);
        callers::remember(&mut self.callers, caller, last);
        self.entries += 1;
        self.last_stop = stop_behind(self.last_stop, stops, self.entries);
        self.moment = parts.moment();
        self.stories.commit(parts)
    }
}

/// Whether the command is a stop.
fn is_stop(command: &Command) -> bool
    ensures { result ≡ is_stop_command command.now }
{
    matches!(command, Command::Stop)
}

/// The last stop, where this is the place of an entry that may be one.
fn stop_behind(before: u64, stops: bool, place: u64) -> u64
    ensures { result ≡ (if stops then place else before) }
{
    if stops { place } else { before }
}
