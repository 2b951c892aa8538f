//! What an ingest does, and the first reason to deny it.
ghost use Rattle.std.specs.Prelude.{◌≡◌, IfOk, is_some};
ghost use Rattle.news_types.specs.History.{History};
ghost use Rattle.news_types.specs.Items as items;
ghost use Rattle.news_types.specs.Publications as published;
ghost use Rattle.news_types.specs.Routing.{provider as provider_of, routed_from};
ghost use Rattle.news_types.specs.Denial.{new_item_denial};
ghost use Rattle.story_tables.specs.Ingests.{effect_of};
ghost use Rattle.newsroom.specs.Ingests.{placed_denial};
ghost use Rattle.newsroom.specs.Stands.{StandsFor};

use crate::newsroom::Newsroom;
use news_types::{Denial, Holder, Incoming, Memory, Moment, Name, Place, PubStatus};
use story_tables::Effect;

impl Newsroom {
    // What an ingest does at a moment.
    pub(crate) fn effect(
        &self,
        provider: &Name,
        come: &Incoming,
        moment: Moment,
    ) -> Result<Effect, Memory>
        ensures { IfOk result (λ effect. (h : History) → StandsFor self.now h → effect_of effect ≡ published.effect h provider.now come.now moment) }
    {
        let item = self.stories.known(*provider, &come.identity)?;
        if item == 0 {
            let effect = self.effect_of_new(provider, come, moment)?;
            return Ok(effect);
        }
        let held = is_held(self.rules.holder(item));
        Ok(self.stories.effect_on(come, item, held, moment))
    }

    // What it does where the item is not known.
    fn effect_of_new(
        &self,
        provider: &Name,
        come: &Incoming,
        moment: Moment,
    ) -> Result<Effect, Memory>
        ensures { IfOk result (λ effect. (h : History) → StandsFor self.now h → effect_of effect ≡ items.effect_of_new come.now.status (routed_from h (provider_of h provider.now) come.now.story moment)) }
    {
        match come.status {
            PubStatus::Usable => {
                let routed = self.rules.routed(provider, &come.story, moment)?;
                let place: Option<Place> = routed.place;
                Ok(placed(place, routed.publishes))
            }
            PubStatus::Withheld => Ok(Effect::New),
            PubStatus::Canceled => Ok(Effect::Settled(0)),
        }
    }

    // The first reason to deny what it does.
    pub(crate) fn new_item_denied(&self, effect: &Effect) -> Option<Denial>
        ensures { (h : History) → StandsFor self.now h → result ≡ new_item_denial h (effect_of effect.now) }
    {
        match effect {
            Effect::New => self.stories.items_full(),
            Effect::NewAt { published, .. } => self.placed_denied(*published),
            _ => None,
        }
    }

    // The first reason to deny an item at a place, which is published or not.
    fn placed_denied(&self, published: bool) -> Option<Denial>
        ensures { (h : History) → StandsFor self.now h → result ≡ placed_denial h published }
    {
        if let Some(denial) = self.stories.items_full() {
            return Some(denial);
        }
        if published {
            return self.stories.publications_full();
        }
        None
    }
}

fn is_held(holder: Option<Holder>) -> bool
    ensures { result ≡ is_some holder }
{
    holder.is_some()
}

/// The effect of a new item that goes there.
fn placed(place: Option<Place>, published: bool) -> Effect
    ensures { effect_of result ≡ items.placed place published }
{
    match place {
        Some(place) => Effect::NewAt { place, published },
        None => Effect::New,
    }
}
