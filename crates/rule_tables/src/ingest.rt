//! What an ingest does to the tables: it makes an item, at a place or at none.
ghost use Rattle.std.specs.Prelude.{◌≡◌, ◌∷◌, ℕ, Bool, IfOk, Option, is_some};
ghost use Rattle.news_types.specs.Names.{Bytes};
ghost use Rattle.news_types.specs.History.{History};
ghost use Rattle.news_types.specs.Items.{placed};
ghost use Rattle.news_types.specs.Publications.{effect};
ghost use Rattle.news_types.specs.Routing.{provider};
ghost use Rattle.news_types.specs.Outcome.{entry_of};
ghost use Rattle.news_types.specs.declared.entry.Act.TheVariants.{Ingest};
ghost use Rattle.news_types.specs.declared.rules.Place.{Place};
ghost use Rattle.news_types.specs.declared.story.Incoming.{Incoming};
ghost use Rattle.desk_rules.specs.Facts.{facts};
ghost use Rattle.desk_rules.specs.Steps.{IsMaking, IsThereIfGiven, HasRoom as HasDeskRoom};
ghost use Rattle.rule_tables.specs.Keeps.{KeepsRules};

use crate::rules::Rules;
use desk_rules::DeskChange;
use news_types::{Memory, Name, Place};

/// An item that comes in, with the memory for it taken. One that is dropped changes nothing.
#[derive(Drop)]
pub struct PlaceChange {
    pub(crate) desks: DeskChange,
}

impl Rules {
    /// Whether the provider is there. It takes no memory.
    pub fn has_provider(&self, name: &Name) -> bool
        ensures { (h : History) → KeepsRules self.now h → result ≡ is_some (provider h name.now) }
    {
        self.sources.has_provider(name)
    }

    /// Takes the memory for an item that comes in, at a place that is there or at none. All stays as it is, also where
    /// memory is wanting.
    pub fn prepare_item(&mut self, place: Option<Place>) -> Result<PlaceChange, Memory>
        ensures stays { (h : History) → KeepsRules self.old h → KeepsRules self.new h }
        ensures room { IfOk result (λ change. HasDeskRoom self.new.desks change.desks) }
        ensures change { (h : History) → IsThereIfGiven (facts h) place → IfOk result (λ change. IsMaking change.desks place h) }
    {
        let desks = self.desks.prepare_item(place)?;
        Ok(PlaceChange { desks })
    }

    /// Makes the item. It takes no memory. Nothing may have been committed since the change was prepared.
    pub fn commit_item(&mut self, change: PlaceChange)
        requires { HasDeskRoom self.old.desks change.desks }
        ensures { (h : History) (m : ℕ) (name : Bytes) (come : Incoming) (place : Option Place) (published : Bool) → KeepsRules self.old h → IsMaking change.desks place h
            → effect h name come m ≡ placed place published → KeepsRules self.new (entry_of m (Ingest name come) ∷ h) }
    {
        let PlaceChange { desks } = change;
        self.desks.commit(desks);
    }
}
