//! Changes by commands that withdraw.
ghost use Rattle.std.specs.Prelude.{◌≡◌, ◌<◌, ◌+◌, ◌∷◌, ℕ, IfOk, length};
ghost use Rattle.news_types.specs.Names.{Bytes};
ghost use Rattle.news_types.specs.History.{History};
ghost use Rattle.news_types.specs.Legal.{IsLegal};
ghost use Rattle.news_types.specs.Outcome.{entry_of};
ghost use Rattle.news_types.specs.declared.entry.Act.TheVariants.{Request};
ghost use Rattle.news_types.specs.declared.command.Command.TheVariants as command;
ghost use Rattle.story_tables.specs.Feeds.{withdrawal_of};
ghost use Rattle.story_tables.specs.Keeps.{KeepsStories, HasPlace};
ghost use Rattle.story_tables.specs.Parts.{HasRoom, IsFor};

use crate::feeds::FeedStep;
use crate::parts::Parts;
use crate::stories::Stories;
use news_types::{Command, Memory, Moment, Reply};
use publications::{FirstFacts, PublicationChange};
use publish_queue::Span;

impl Stories {
    /// What a deschedule of an item does, behind so many entries.
    pub fn prepare_deschedule(
        &self,
        item: u32,
        moment: Moment,
        entries: u64,
    ) -> Result<Parts, Memory>
        requires place { HasPlace self.now }
        requires few { entries < 4294967295 }
        ensures room { IfOk result (λ parts. HasRoom self.now parts) }
        ensures change { (h : History) (caller : Bytes) (number : ℕ) → KeepsStories self.now h → entries ≡ length h → IsLegal (entry_of moment (Request caller number (command.Deschedule item)) ∷ h)
            → IfOk result (λ parts. IsFor parts moment (Request caller number (command.Deschedule item)) h) }
    {
        let spans = self.spans(item)?;
        let command = Command::Deschedule { item };
        let items = self.prepare_set(&command, moment);
        // (let go here, once, and not beside the `?`)
        drop(command);
        let items = items?;
        Ok(Parts {
            moment,
            reply: Reply {
                entry: entries + 1,
                item,
                publication: 0,
                release: 0,
            },
            items,
            publications: PublicationChange::withdraw(item),
            feeds: withdrawal(self.publications.first(item), spans),
        })
    }
}

/// What the feeds lose with an item's first publication, if one stands, which is released to each within its span.
fn withdrawal(first: Option<FirstFacts>, spans: Vec<Span>) -> FeedStep
    ensures { result ≡ withdrawal_of first spans }
{
    match first {
        Some(first) => FeedStep::Withdraw {
            number: first.number,
            release: first.release,
            spans,
        },
        None => FeedStep::Nothing,
    }
}
