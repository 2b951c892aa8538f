//! Changes by commands that publish items that are there.
ghost use Rattle.std.specs.Prelude.{◌≡◌, ◌<◌, ◌∷◌, ℕ, true, List, Some, IfOk, length};
ghost use Rattle.news_types.specs.Names.{Bytes};
ghost use Rattle.news_types.specs.History.{History};
ghost use Rattle.news_types.specs.Due.{Pub};
ghost use Rattle.news_types.specs.Publications.{issued_by_command, made, standing};
ghost use Rattle.news_types.specs.Legal.{IsLegal};
ghost use Rattle.news_types.specs.Outcome.{entry_of};
ghost use Rattle.news_types.specs.declared.entry.Act.TheVariants.{Request};
ghost use Rattle.news_types.specs.declared.words.Kind.TheVariants as kind;
ghost use Rattle.publications.specs.Keeps.{Keeps as KeepsPublications, Tells, shown};
ghost use Rattle.publications.specs.Steps.{HasRoom as HasPublicationRoom, IsFor as IsForPublications};
ghost use Rattle.publish_queue.specs.declared.queue.Queue.{Queue};
ghost use Rattle.publish_queue.specs.Keeps.{HasRoom as HasQueueRoom};
ghost use Rattle.publish_queue.specs.Order.{Differ};
ghost use Rattle.publish_queue.specs.Many.{names_in};
ghost use Rattle.story_tables.specs.Feeds.{HasFeedRoom, own_release};
ghost use Rattle.story_tables.specs.Issued.{issues, issued_of, issue_shown, left_by_kind, IsTold, given_by_kind, IsStepOf};
ghost use Rattle.story_tables.specs.Keeps.{KeepsStories, HasPlace};
ghost use Rattle.story_tables.specs.Parts.{HasRoom, IsFor};
ghost use Rattle.story_tables.specs.Publishing.{IsDueTo};

use crate::feeds::FeedStep;
use crate::issue::Issue;
use crate::parts::Parts;
use crate::stories::Stories;
use item_table::SharedStory;
use news_types::{Command, Due, Kind, Memory, Moment, Names, Reply};
use publications::{OfItem, PublicationChange, Publications, Published};
use std::alloc::Global;

impl Stories {
    /// Takes the memory for what a command publishes, due to these, behind so many entries. All stays as it is, also where
    /// memory is wanting.
    pub fn prepare_issue(
        &mut self,
        command: &Command,
        issue: Issue,
        due: Vec<Due>,
        moment: Moment,
        entries: u64,
    ) -> Result<Parts, Memory>
        requires place { HasPlace self.old }
        requires few { entries < 4294967295 }
        requires differ { Differ (names_in due.items) }
        ensures stays { (h : History) → KeepsStories self.old h → KeepsStories self.new h }
        ensures room { IfOk result (λ parts. HasRoom self.new parts) }
        ensures change { (h : History) (caller : Bytes) (number : ℕ) → KeepsStories self.old h → entries ≡ length h → issues command.now ≡ true → IsLegal (entry_of moment (Request caller number command.now) ∷ h)
            → Some issue ≡ issued_of (issued_by_command (made h) moment caller command.now) → IsDueTo due.items h (standing h) issue.kind issue.item issue.story issue.release issue.targets
            → IfOk result (λ parts. IsFor parts moment (Request caller number command.now) h) }
    {
        let number = self.next_publication();
        let items = self.set_to(command, moment, given(&issue)?);
        let item = issue.item;
        let kind = issue.kind;
        let release = issue.release;
        let publications = prepare_publication(
            &mut self.publications,
            self.alloc,
            number,
            issue,
            &due,
        )?;
        let own = own_release(kind, release, moment);
        self.queue.reserve_for(number, own, &due)?;
        let feeds = self.step_of(kind, item, number, release, due)?;
        Ok(Parts {
            moment,
            reply: Reply {
                entry: entries + 1,
                item,
                publication: number,
                release,
            },
            items,
            publications,
            feeds,
        })
    }

    /// What a publication of the item, of that kind, does to the feeds.
    fn step_of(
        &self,
        kind: Kind,
        item: u32,
        number: u32,
        release: Moment,
        due: Vec<Due>,
    ) -> Result<FeedStep, Memory>
        ensures step { (ps st : List Pub) → KeepsPublications self.now.publications ps st → IfOk result (λ step. IsStepOf step kind item ps st number release due) }
        ensures room { (queue : Queue) (m : ℕ) → HasQueueRoom queue number (own_release kind release m) due.items → Differ (names_in due.items) → IfOk result (λ step. HasFeedRoom queue m step) }
    {
        match kind {
            Kind::First | Kind::Correct => Ok(FeedStep::Publish {
                number,
                release,
                due,
            }),
            Kind::Kill | Kind::Recall => Ok(FeedStep::TakeBack {
                numbers: Vec::from_slice(self.alloc, self.publications.numbers(item))?,
                spans: self.spans(item)?,
                number,
                due,
            }),
        }
    }
}

/// When a publication of that kind is released itself: what takes back is at the moment of its entry.
fn own_release(kind: Kind, release: Moment, moment: Moment) -> Moment
    ensures { result ≡ own_release kind release moment }
{
    match kind {
        Kind::First | Kind::Correct => release,
        Kind::Kill | Kind::Recall => moment,
    }
}

/// The story that is given to the item, if one is.
fn given(issue: &Issue) -> Result<Option<SharedStory>, Memory>
    ensures { IfOk result (λ story. story ≡ given_by_kind issue.now.kind issue.now.story) }
{
    match issue.kind {
        Kind::Correct => Ok(Some(issue.story.share()?)),
        _ => Ok(None),
    }
}

/// Takes the memory for the publication of that number, which is due to these.
fn prepare_publication(
    publications: &mut Publications,
    alloc: Global,
    number: u32,
    issue: Issue,
    due: &[Due],
) -> Result<PublicationChange, Memory>
    ensures stays { (ps st : List Pub) → KeepsPublications publications.old ps st → KeepsPublications publications.new ps st }
    ensures room { IfOk result (λ change. HasPublicationRoom publications.new change) }
    ensures change { (ps st : List Pub) (p : Pub) → KeepsPublications publications.old ps st → issue ≡ issue_shown p → number ≡ p.number → IsTold p.kind p due.now st
        → IfOk result (λ change. IsForPublications change ps st (p ∷ ps) (p ∷ left_by_kind p.kind p st)) }
{
    let Issue {
        item,
        version,
        kind,
        release,
        targets,
        story,
    } = issue;
    let row = Published {
        item,
        version,
        kind,
        release,
        story,
    };
    match kind {
        Kind::First => prepare_first(publications, alloc, number, row, targets, due),
        Kind::Correct => publications.prepare_correction(number, row, due),
        Kind::Kill => publications.prepare_taking_back(number, row, due),
        Kind::Recall => publications.prepare_taking_back(number, row, due),
    }
}

/// Takes the memory for the first publication of an item.
fn prepare_first(
    publications: &mut Publications,
    alloc: Global,
    number: u32,
    row: Published,
    targets: Names,
    due: &[Due],
) -> Result<PublicationChange, Memory>
    ensures stays { (ps st : List Pub) → KeepsPublications publications.old ps st → KeepsPublications publications.new ps st }
    ensures room { IfOk result (λ change. HasPublicationRoom publications.new change) }
    ensures change { (ps st : List Pub) (p : Pub) → KeepsPublications publications.old ps st → p.kind ≡ kind.First → row ≡ shown p → targets ≡ p.targets → number ≡ p.number → Tells due.now due.now (p ∷ st) p.item
        → IfOk result (λ change. IsForPublications change ps st (p ∷ ps) (p ∷ st)) }
{
    let of = OfItem {
        number,
        release: row.release,
        targets,
        soonest: Vec::from_slice(alloc, due)?,
        newest: Vec::from_slice(alloc, due)?,
    };
    publications.prepare(row, of)
}
