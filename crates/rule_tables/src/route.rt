//! Where a story goes that comes in.
ghost use Rattle.std.specs.Prelude.{◌≡◌, ℕ, List, Option, IfOk};
ghost use Rattle.std.specs.Option.{option_copied};
ghost use Rattle.news_types.specs.Names.{Bytes};
ghost use Rattle.news_types.specs.History.{History};
ghost use Rattle.news_types.specs.declared.rules.Rule.{Rule};
ghost use Rattle.news_types.specs.Routing.{Provider, provider as provider_of, routed_from, first_fetch, publishes};
ghost use Rattle.rule_tables.specs.Keeps.{KeepsRules};
ghost use Rattle.rule_tables.specs.Sources.{Keeps};
ghost use Rattle.rule_tables.specs.Routed.{IsRouted, rules_from};

use crate::rules::Rules;
use crate::sources::Sources;
use news_types::{Memory, Moment, Name, Place, RouteAction, Story};
use routing_rules::Routes;

/// Where a story goes, if somewhere, and whether it is published there.
#[derive(Clone, Copy)]
pub struct Routed {
    pub place: Option<Place>,
    pub publishes: bool,
}

impl Sources {
    /// The routes of the provider's scheme, if it has one. It takes no memory.
    fn routes(&self, provider: &Name) -> Option<&Routes>
        ensures { (scheme : Bytes → Option (List Rule)) (schemes : ℕ) (given : Bytes → Option Provider) (providers : ℕ)
            → Keeps self.now scheme schemes given providers → option_copied result ≡ rules_from scheme (given provider.now) }
    {
        let source = self.providers.get(provider)?;
        let scheme = source.scheme?;
        self.schemes.get(&scheme)
    }
}

impl Rules {
    /// Where a story of the provider's goes at a moment. A provider that is not there brings it nowhere.
    pub fn routed(&self, provider: &Name, story: &Story, moment: Moment) -> Result<Routed, Memory>
        ensures { IfOk result (λ routed. (h : History) → KeepsRules self.now h → IsRouted routed (routed_from h (provider_of h provider.now) story.now moment)) }
    {
        let Some(routes) = self.sources.routes(provider) else {
            return Ok(Routed {
                place: None,
                publishes: false,
            });
        };
        let actions = routes.route(&self.filters, story, moment)?;
        Ok(Routed {
            place: first_fetch(actions.as_slice()),
            publishes: publishes(actions.as_slice()),
        })
    }
}

/// The place of the first fetch.
fn first_fetch(actions: &[RouteAction]) -> Option<Place>
    ensures { result ≡ first_fetch actions.now }
{
    for action in actions.iter() {
        if let RouteAction::Fetch { desk, stage } = action {
            return Some(Place {
                desk: *desk,
                stage: *stage,
            });
        }
    }
    None
}

/// Whether some action publishes.
fn publishes(actions: &[RouteAction]) -> bool
    ensures { result ≡ publishes actions.now }
{
    for action in actions.iter() {
        if let RouteAction::Publish = action {
            return true;
        }
    }
    false
}
