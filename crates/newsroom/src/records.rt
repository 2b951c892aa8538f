//! What an entry does to the records of what is due and of the wires.
ghost use Rattle.std.specs.Prelude.{◌≡◌, ◌∷◌, ℕ, true, Some, IfOk};
ghost use Rattle.news_types.specs.Names.{Bytes};
ghost use Rattle.news_types.specs.History.{History};
ghost use Rattle.news_types.specs.declared.entry.Act.TheVariants.{Request, Ingest};
ghost use Rattle.news_types.specs.declared.command.Command.{Command};
ghost use Rattle.news_types.specs.declared.command.Command.TheVariants as command;
ghost use Rattle.news_types.specs.Legal.{IsLegal};
ghost use Rattle.news_types.specs.Publications.{issued_by_command, made, pubs, standing, effect as effect_at};
ghost use Rattle.news_types.specs.Outcome.{entry_of};
ghost use Rattle.publications.specs.Numbers.{numbers_of};
ghost use Rattle.story_tables.specs.Ingests.{effect_of, IsUnpublished};
ghost use Rattle.story_tables.specs.Issued.{issues, issued_of};
ghost use Rattle.story_tables.specs.Parts.{Allows, is_silent};
ghost use Rattle.story_tables.specs.Publishing.{IsDueTo};
ghost use Rattle.desk_records.specs.Dues.{KeepsDues};
ghost use Rattle.desk_records.specs.DueSteps.{HasDueRoom, IsForDues};
ghost use Rattle.desk_views.specs.Wires.{wire_of};
ghost use Rattle.newsroom.specs.Stands.{StandsFor, Stands, store_of};
ghost use Rattle.newsroom.specs.Changes.{HasStoryRoom, IsForStory};

use crate::change::StoryChange;
use crate::newsroom::Newsroom;
use desk_records::{DueChange, Dues};
use desk_views::Wire;
use news_types::{Command, Due, Incoming, Kind, Memory, Moment, Name};
use story_tables::{Effect, Issue};

impl Newsroom {
    // Takes the memory for a command that publishes and withdraws nothing.
    pub(crate) fn prepare_silent(
        &mut self,
        command: &Command,
        moment: Moment,
    ) -> Result<StoryChange, Memory>
        requires stands { Stands self.old }
        ensures stays { (h : History) → StandsFor self.old h → StandsFor self.new h }
        ensures store { store_of self.new ≡ store_of self.old }
        ensures room { IfOk result (λ change. HasStoryRoom self.new change) }
        ensures change { (h : History) (caller : Bytes) (number : ℕ) → StandsFor self.old h → is_silent command.now ≡ true → Allows command.now h
            → IsLegal (entry_of moment (Request caller number command.now) ∷ h) → IfOk result (λ change. IsForStory change moment (Request caller number command.now) h) }
    {
        let dues = prepare_added(&mut self.dues, command)?;
        let parts = self.stories.prepare_silent(command, moment, self.entries)?;
        Ok(StoryChange { parts, dues })
    }

    // Takes the memory for a deschedule of the item.
    pub(crate) fn prepare_deschedule(
        &mut self,
        item: u32,
        moment: Moment,
    ) -> Result<StoryChange, Memory>
        requires stands { Stands self.old }
        ensures stays { (h : History) → StandsFor self.old h → StandsFor self.new h }
        ensures store { store_of self.new ≡ store_of self.old }
        ensures room { IfOk result (λ change. HasStoryRoom self.new change) }
        ensures change { (h : History) (caller : Bytes) (number : ℕ) → StandsFor self.old h → IsLegal (entry_of moment (Request caller number (command.Deschedule item)) ∷ h)
            → IfOk result (λ change. IsForStory change moment (Request caller number (command.Deschedule item)) h) }
    {
        let numbers = self.stories.numbers(item);
        let dues = self.dues.prepare_withdrawal(numbers)?;
        let parts = self.stories.prepare_deschedule(item, moment, self.entries)?;
        Ok(StoryChange { parts, dues })
    }

    // Takes the memory for an ingest that publishes nothing.
    pub(crate) fn prepare_unpublished(
        &mut self,
        provider: &Name,
        come: &Incoming,
        effect: &Effect,
        moment: Moment,
    ) -> Result<StoryChange, Memory>
        requires stands { Stands self.old }
        ensures stays { (h : History) → StandsFor self.old h → StandsFor self.new h }
        ensures store { store_of self.new ≡ store_of self.old }
        ensures room { IfOk result (λ change. HasStoryRoom self.new change) }
        ensures change { (h : History) → StandsFor self.old h → effect_of effect.now ≡ effect_at h provider.now come.now moment → IsUnpublished effect.now
            → IfOk result (λ change. IsForStory change moment (Ingest provider.now come.now) h) }
    {
        let parts = self
            .stories
            .prepare_ingest(*provider, come, effect, moment, self.entries)?;
        let dues = DueChange::nothing();
        Ok(StoryChange { parts, dues })
    }
}

// Takes the memory for the subscriber that the command adds, if it adds one.
fn prepare_added(dues: &mut Dues, command: &Command) -> Result<DueChange, Memory>
    ensures stays { (h : History) → KeepsDues dues.old h → KeepsDues dues.new h }
    ensures room { IfOk result (λ change. HasDueRoom dues.new change) }
    ensures change { (h : History) (m : ℕ) (caller : Bytes) (number : ℕ) → is_silent command.now ≡ true → IsLegal (entry_of m (Request caller number command.now) ∷ h)
        → IfOk result (λ change. IsForDues change h (entry_of m (Request caller number command.now) ∷ h)) }
{
    match command {
        Command::AddSubscriber { subscriber, .. } => dues.prepare_subscriber(*subscriber),
        _ => Ok(DueChange::nothing()),
    }
}

/// Takes the memory for what a command publishes of an item with publications of these numbers, due to these.
pub(crate) fn prepare_issued(
    dues: &mut Dues,
    issue: &Issue,
    due: &[Due],
    numbers: &[u32],
    moment: Moment,
) -> Result<DueChange, Memory>
    ensures stays { (h : History) → KeepsDues dues.old h → KeepsDues dues.new h }
    ensures room { IfOk result (λ change. HasDueRoom dues.new change) }
    ensures change { (h : History) (caller : Bytes) (number : ℕ) (command : Command) → KeepsDues dues.old h → issues command ≡ true
        → Some issue.now ≡ issued_of (issued_by_command (made h) moment caller command) → numbers.now ≡ numbers_of issue.now.item (pubs h)
        → IsDueTo due.now h (standing h) issue.now.kind issue.now.item issue.now.story issue.now.release issue.now.targets
        → IfOk result (λ change. IsForDues change h (entry_of moment (Request caller number command) ∷ h)) }
{
    match issue.kind {
        Kind::First => dues.prepare_publication(due),
        Kind::Correct => dues.prepare_publication(due),
        Kind::Kill => dues.prepare_taking_back(due, numbers, moment),
        Kind::Recall => dues.prepare_taking_back(due, numbers, moment),
    }
}

/// What is remembered of what a provider sent.
pub(crate) fn wire_of(come: &Incoming) -> Wire
    ensures { result ≡ wire_of come.now }
{
    Wire {
        embargo: come.embargo,
        status: come.status,
    }
}
