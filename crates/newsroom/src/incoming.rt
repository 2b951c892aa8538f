//! Ingests that are decided: their memory is taken first, and they are kept later without any.
ghost use Rattle.std.specs.Prelude.{◌≡◌, ◌<◌, ◌≤◌, ◌∷◌, ℕ, true, IfOk, length, max};
ghost use Rattle.news_types.specs.Names.{Bytes};
ghost use Rattle.news_types.specs.History.{History, moment as last_moment};
ghost use Rattle.news_types.specs.declared.entry.Act.TheVariants.{Ingest};
ghost use Rattle.news_types.specs.declared.story.Incoming.{Incoming};
ghost use Rattle.news_types.specs.Legal.{IsLegal};
ghost use Rattle.news_types.specs.Items.{NewAt};
ghost use Rattle.news_types.specs.Publications.{effect as effect_at};
ghost use Rattle.news_types.specs.Denial.{ingest_denial};
ghost use Rattle.news_types.specs.Outcome.{kept, ingest_at, reply_to, entry_of, no_entry};
ghost use Rattle.rule_tables.specs.Keeps.{KeepsRules};
ghost use Rattle.story_tables.specs.Ingests.{effect_of};
ghost use Rattle.newsroom.specs.Stands.{StandsFor, Stands, store_of};
ghost use Rattle.newsroom.specs.Ingests.{published_at, IsThereIfMade};
ghost use Rattle.newsroom.specs.Changes.{HasStoryRoom, IsForStory, HasPlaceRoom, HasIngestRoom, HasMemory, IsForPlace, IsForIngest, IsFor, IfChange, Decides};

use crate::change::{Change, IngestChange, Prepared, StoryChange};
use crate::newsroom::Newsroom;
use crate::records::wire_of;
use news_types::{Denial, Incoming, Kind, Memory, Moment, Name, Place, Reply, Thing};
use rule_tables::{PlaceChange, Rules};
use story_tables::Effect;

impl Newsroom {
    // Decides an ingest, and takes the memory for it.
    pub(crate) fn prepare_ingest(
        &mut self,
        provider: &Name,
        come: &Incoming,
        moment: Moment,
    ) -> Prepared
        requires stands { Stands self.old }
        ensures outcome { (h : History) → StandsFor self.old h → Decides (ingest_at h provider.now come.now moment) (kept h moment (Ingest provider.now come.now)) result }
        ensures stays { (h : History) → StandsFor self.old h → StandsFor self.new h }
        ensures store { store_of self.new ≡ store_of self.old }
        ensures memory { IfChange result (λ change. HasMemory self.new change) }
        ensures change { (h : History) → StandsFor self.old h → last_moment h ≤ moment → IfChange result (λ change. IsFor change (entry_of moment (Ingest provider.now come.now)) h) }
    {
        match self.effect(provider, come, moment) {
            Ok(effect) => self.decide_ingest(provider, come, &effect, moment),
            Err(_) => Prepared::Memory,
        }
    }

    // Decides an ingest that does this.
    fn decide_ingest(
        &mut self,
        provider: &Name,
        come: &Incoming,
        effect: &Effect,
        moment: Moment,
    ) -> Prepared
        requires stands { Stands self.old }
        ensures outcome { (h : History) → StandsFor self.old h → effect_of effect.now ≡ effect_at h provider.now come.now moment
            → Decides (ingest_at h provider.now come.now moment) (kept h moment (Ingest provider.now come.now)) result }
        ensures stays { (h : History) → StandsFor self.old h → StandsFor self.new h }
        ensures store { store_of self.new ≡ store_of self.old }
        ensures memory { IfChange result (λ change. HasMemory self.new change) }
        ensures change { (h : History) → StandsFor self.old h → last_moment h ≤ moment → effect_of effect.now ≡ effect_at h provider.now come.now moment
            → IfChange result (λ change. IsFor change (entry_of moment (Ingest provider.now come.now)) h) }
    {
        if let Some(denial) = self.ingest_denied(provider, effect) {
            return Prepared::Denied(denial);
        }
        if let Effect::Settled(item) = effect {
            return Prepared::Settled(unkept(*item));
        }
        match self.take_ingest_memory(provider, come, effect, moment) {
            Ok(ingest) => Prepared::Change(Change::Ingest(ingest)),
            Err(_) => Prepared::Memory,
        }
    }

    // The first reason to deny an ingest that does this.
    fn ingest_denied(&self, provider: &Name, effect: &Effect) -> Option<Denial>
        ensures { (h : History) (come : Incoming) (m : ℕ) → StandsFor self.now h → effect_of effect.now ≡ effect_at h provider.now come m → result ≡ ingest_denial h provider.now come m }
    {
        if !self.rules.has_provider(provider) {
            return Some(Denial::UnknownThing {
                thing: Thing::Provider,
            });
        }
        self.new_item_denied(effect)
    }

    // Takes the memory for an ingest that is accepted and does this.
    fn take_ingest_memory(
        &mut self,
        provider: &Name,
        come: &Incoming,
        effect: &Effect,
        moment: Moment,
    ) -> Result<IngestChange, Memory>
        requires stands { Stands self.old }
        ensures stays { (h : History) → StandsFor self.old h → StandsFor self.new h }
        ensures store { store_of self.new ≡ store_of self.old }
        ensures room { IfOk result (λ change. HasIngestRoom self.new change) }
        ensures change { (h : History) → StandsFor self.old h → IsLegal (entry_of moment (Ingest provider.now come.now) ∷ h) → effect_of effect.now ≡ effect_at h provider.now come.now moment
            → IfOk result (λ change. IsForIngest change moment provider.now come.now h) }
    {
        let StoryChange { parts, dues } = self.ingest_parts(provider, come, effect, moment)?;
        let wires = self.wires.prepare(parts.reply().item, wire_of(come))?;
        let place = prepare_place(&mut self.rules, effect)?;
        Ok(IngestChange {
            parts,
            dues,
            wires,
            place,
        })
    }

    // Takes the memory for what it does to items, publications and feeds, and to what is due.
    fn ingest_parts(
        &mut self,
        provider: &Name,
        come: &Incoming,
        effect: &Effect,
        moment: Moment,
    ) -> Result<StoryChange, Memory>
        requires stands { Stands self.old }
        ensures stays { (h : History) → StandsFor self.old h → StandsFor self.new h }
        ensures store { store_of self.new ≡ store_of self.old }
        ensures room { IfOk result (λ change. HasStoryRoom self.new change) }
        ensures change { (h : History) → StandsFor self.old h → last_moment h ≤ moment → effect_of effect.now ≡ effect_at h provider.now come.now moment
            → IfOk result (λ change. IsForStory change moment (Ingest provider.now come.now) h) }
    {
        match published_at(effect) {
            Some(place) => self.prepare_routed(provider, come, &place, moment),
            None => self.prepare_unpublished(provider, come, effect, moment),
        }
    }

    // Takes the memory for an item that is made at the place and published at once, and finds to whom it is due.
    fn prepare_routed(
        &mut self,
        provider: &Name,
        come: &Incoming,
        place: &Place,
        moment: Moment,
    ) -> Result<StoryChange, Memory>
        requires stands { Stands self.old }
        ensures stays { (h : History) → StandsFor self.old h → StandsFor self.new h }
        ensures store { store_of self.new ≡ store_of self.old }
        ensures room { IfOk result (λ change. HasStoryRoom self.new change) }
        ensures change { (h : History) → StandsFor self.old h → last_moment h ≤ moment → effect_at h provider.now come.now moment ≡ NewAt place.now true
            → IfOk result (λ change. IsForStory change moment (Ingest provider.now come.now) h) }
    {
        let due = self.rules.due_list(&come.story, &[], &[], Kind::First)?;
        let names = due.as_slice();
        let release = later(moment, come.embargo);
        let releases = self
            .rules
            .releases(self.alloc, names, &[], Kind::First, release)?;
        let dues = self.dues.prepare_publication(&releases)?;
        let parts = self
            .stories
            .prepare_routed(*provider, come, place, releases, moment, self.entries)?;
        Ok(StoryChange { parts, dues })
    }

    // Keeps an ingest. It takes no memory.
    pub(crate) fn keep_ingest(&mut self, change: IngestChange) -> Reply
        requires stands { (h : History) × (m : ℕ) × (name : Bytes) × (come : Incoming) × (StandsFor self.old h × IsForIngest change m name come h × (length h < 4294967295)) }
        requires memory { HasIngestRoom self.old change }
        ensures stands { (h : History) (m : ℕ) (name : Bytes) (come : Incoming) → StandsFor self.old h → IsForIngest change m name come h → StandsFor self.new (entry_of m (Ingest name come) ∷ h) }
        ensures store { store_of self.new ≡ store_of self.old }
        ensures reply { (h : History) (m : ℕ) (name : Bytes) (come : Incoming) → StandsFor self.old h → IsForIngest change m name come h → result ≡ reply_to h m (Ingest name come) }
    {
        let IngestChange {
            parts,
            dues,
            wires,
            place,
        } = change;
        keep_place(&mut self.rules, place);
        self.dues.commit(dues);
        self.wires.commit(wires);
        self.entries += 1;
        self.moment = parts.moment();
        self.stories.commit(parts)
    }
}

// The later of two moments.
fn later(one: Moment, other: Moment) -> Moment
    ensures { result ≡ max one other }
{
    one.max(other)
}

// The reply to what keeps no entry.
fn unkept(item: u32) -> Reply
    ensures { result ≡ no_entry item }
{
    Reply {
        entry: 0,
        item,
        publication: 0,
        release: 0,
    }
}

// The place where what comes in is published at once, if it is.
fn published_at(effect: &Effect) -> Option<Place>
    ensures { result ≡ published_at effect.now }
{
    match effect {
        Effect::NewAt { place, published } => { if *published { Some(*place) } else { None } }
        _ => None,
    }
}

// Takes the memory for the item that it makes, if it makes one.
fn prepare_place(rules: &mut Rules, effect: &Effect) -> Result<Option<PlaceChange>, Memory>
    ensures stays { (h : History) → KeepsRules rules.old h → KeepsRules rules.new h }
    ensures room { IfOk result (λ place. HasPlaceRoom rules.new place) }
    ensures change { (h : History) → IsThereIfMade h (effect_of effect.now) → IfOk result (λ place. IsForPlace place h (effect_of effect.now)) }
{
    match effect {
        Effect::New => {
            let change = rules.prepare_item(None)?;
            Ok(Some(change))
        }
        Effect::NewAt { place, .. } => {
            let change = rules.prepare_item(Some(*place))?;
            Ok(Some(change))
        }
        _ => Ok(None),
    }
}

// Makes the item, if it makes one. It takes no memory.
fn keep_place(rules: &mut Rules, place: Option<PlaceChange>)
    requires { HasPlaceRoom rules.old place }
    ensures { (h : History) (m : ℕ) (name : Bytes) (come : Incoming) → KeepsRules rules.old h → IsForPlace place h (effect_at h name come m) → KeepsRules rules.new (entry_of m (Ingest name come) ∷ h) }
{
    if let Some(change) = place {
        rules.commit_item(change);
    }
}
