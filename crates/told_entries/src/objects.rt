//! Stories, and the objects that stand in the lists of commands, each with all its properties.
ghost use Rattle.std.specs.Prelude.{◌≡◌, ◌<◌, ◌/◌, ◌%◌, ◌==◌, IfOk};
ghost use Rattle.serde_json.specs.Data.{put};
ghost use Rattle.desk_lines.specs.Words.{privilege_bits, day_bits};
ghost use Rattle.told_entries.specs.Members as member;
ghost use Rattle.told_entries.specs.Members.{strings, bit_words};
ghost use Rattle.told_entries.specs.Objects as said;
ghost use Rattle.told_entries.specs.Seen.{seen, seen_items};

use crate::listed::{Shown, names};
use crate::object::{Listed, Told};
use news_types::{Place, Rule, Statement, Story};
use std::alloc::{AllocError, Global};

/// A story with all its properties.
#[tactic(auto, unfolding(crate::specs::Objects::story_members))]
pub(crate) fn story(alloc: Global, story: &Story) -> Result<Told, AllocError>
    ensures { IfOk result (λ told. seen told ≡ said.story_members story.now) }
{
    Told::new(alloc)
        .text("body", story.body.as_str())?
        .text("byline", story.byline.as_str())?
        .text("category", story.category.as_str())?
        .text("copyright", story.copyright.as_str())?
        .text("headline", story.headline.as_str())?
        .flag("html", story.html)?
        .text("kind", story.kind.word())?
        .text("language", story.language.as_str())?
        .text("slugline", story.slugline.as_str())?
        .number("urgency", story.urgency as u64)
}

impl Shown for Statement {
    ghost members = { said.statement_members };

    #[tactic(auto, unfolding(crate::specs::Objects::statement_members))]
    fn shown(&self, alloc: Global) -> Result<Told, AllocError> {
        let conditions = names(alloc, self.conditions.as_slice())?;
        let filters = names(alloc, self.filters.as_slice())?;
        Told::new(alloc)
            .list("conditions", conditions)?
            .list("filters", filters)
    }
}

/// A stage of a desk.
#[tactic(auto, unfolding(crate::specs::Objects::place_members))]
fn place(alloc: Global, place: Place) -> Result<Told, AllocError>
    ensures { IfOk result (λ told. seen told ≡ said.place_members place) }
{
    Told::new(alloc)
        .text("desk", place.desk.as_str())?
        .text("stage", place.stage.as_str())
}

/// The object with the place of a fetch more, or null.
fn fetch(alloc: Global, told: Told, fetch: Option<Place>) -> Result<Told, AllocError>
    ensures { IfOk result (λ more. seen more
        ≡ member.given_inner "fetch" said.place_members fetch (seen told)) }
{
    match fetch {
        None => told.null("fetch"),
        Some(at) => told.inner("fetch", place(alloc, at)?),
    }
}

impl Shown for Rule {
    ghost members = { said.rule_members };

    #[tactic(auto, unfolding(crate::specs::Objects::rule_members))]
    fn shown(&self, alloc: Global) -> Result<Told, AllocError> {
        let days = days(alloc, self.days)?;
        let told = Told::new(alloc)
            .list("days", days)?
            .flag("exit", self.exit)?;
        fetch(alloc, told, self.fetch)?
            .given_name("filter", self.filter)?
            .number("from", self.from as u64)?
            .flag("publish", self.publish)?
            .number("to", self.to as u64)?
            .text("zone", self.zone.as_str())
    }
}

/// Whether the bit is in the set.
fn has(set: u16, bit: u16) -> bool
    requires { 0 < bit }
    ensures { result ≡ (set / bit % 2 == 1) }
{
    set / bit % 2 == 1
}

/// The words of the privileges in the set.
#[tactic(auto, using(crate::proofs::Sets::privileges_listed))]
pub(crate) fn privileges(alloc: Global, set: u16) -> Result<Listed, AllocError>
    ensures { IfOk result (λ list. seen_items list ≡ strings (bit_words privilege_bits set)) }
{
    Listed::new(alloc)
        .text_if(has(set, 1), "users")?
        .text_if(has(set, 2), "desks")?
        .text_if(has(set, 4), "filters")?
        .text_if(has(set, 8), "subscribers")?
        .text_if(has(set, 16), "ingest")?
        .text_if(has(set, 32), "write")?
        .text_if(has(set, 64), "publish")?
        .text_if(has(set, 128), "kill")?
        .text_if(has(set, 256), "unlock")?
        .text_if(has(set, 512), "stop")
}

/// The words of the days in the set.
#[tactic(auto, using(crate::proofs::Sets::days_listed))]
fn days(alloc: Global, set: u8) -> Result<Listed, AllocError>
    ensures { IfOk result (λ list. seen_items list ≡ strings (bit_words day_bits set)) }
{
    let set = set as u16;
    Listed::new(alloc)
        .text_if(has(set, 1), "mon")?
        .text_if(has(set, 2), "tue")?
        .text_if(has(set, 4), "wed")?
        .text_if(has(set, 8), "thu")?
        .text_if(has(set, 16), "fri")?
        .text_if(has(set, 32), "sat")?
        .text_if(has(set, 64), "sun")
}
