//! Schemes whose zones were read, and what they ask for of a story.
ghost use Rattle.std.specs.Prelude.{◌≡◌, IfOk, IsTrue};
ghost use Rattle.std.specs.List.{list_all};
ghost use Rattle.news_types.specs.declared.story.Story.{Story};
ghost use Rattle.news_types.specs.History.{History};
ghost use Rattle.news_types.specs.Routing as said;
ghost use Rattle.content_filters.specs.Reasons.{KeepsFacts};
ghost use Rattle.routing_rules.specs.Judged.{AreVerdictsOf};
ghost use Rattle.routing_rules.specs.Zones.{NamesZone, AreZonesOf};

use crate::actions::{Actions, push_asked};
use crate::span::is_in_span;
use crate::zone::zone_of;
use content_filters::{Filters, Verdicts};
use jiff::tz::TimeZone;
use news_types::{Memory, Moment, Name, RouteAction, Rule, Scheme, Story};
use std::alloc::Global;
use std::marker::Model;

/// A scheme to route stories by. The zones of its rules were read once, when it was made.
#[derive(Drop)]
pub struct Routes {
    alloc: Global,
    scheme: Scheme,
    /// The zone of each rule, in the order of the rules.
    zones: Vec<TimeZone<'static>>,
}

impl Model for Routes {
    ghost use Rattle.std.specs.Prelude.{List};
    ghost use Rattle.news_types.specs.declared.rules.Rule.{Rule};
    ghost use Rattle.routing_rules.specs.Zones.{AreZonesOf};

    ghost Value = { List Rule };

    ghost view = { λ routes. routes.scheme };

    ghost invariant = { λ routes. AreZonesOf routes.scheme routes.zones.items };
}

impl Routes {
    /// The routes of a scheme that may be given, as `judge_scheme` says: the zone of each of its rules is read.
    ///
    /// Only memory can fail, and then the scheme is dropped.
    pub fn of(alloc: Global, scheme: Scheme) -> Result<Routes, Memory>
        requires { IsTrue (said.is_scheme scheme) }
        ensures { IfOk result (λ routes. routes ≡ scheme) }
    {
        let zones = zones_of(alloc, scheme.as_slice())?;
        Ok(Routes {
            alloc,
            scheme,
            zones,
        })
    }

    /// The rules of the scheme that it was made of. It takes no memory.
    pub fn rules(&self) -> &[Rule]
        ensures { result.now ≡ self.now }
    {
        self.scheme.as_slice()
    }

    /// The actions of the rules that apply to the story at the moment, in order, each rule's fetch, publish and exit,
    /// up to and with the first exit.
    ///
    /// A rule without a filter applies to every story, one with a filter that is not there to none. Only memory can
    /// fail.
    pub fn route(&self, filters: &Filters, story: &Story, moment: Moment) -> Result<Actions, Memory>
        ensures { IfOk result (λ actions. (h : History) → KeepsFacts filters.now h → actions ≡ said.routed h self.now story.now moment) }
    {
        let verdicts = filters.verdicts(story)?;
        let actions = self.actions(filters, &verdicts, moment)?;
        Ok(Actions::of(actions))
    }

    fn actions(
        &self,
        filters: &Filters,
        verdicts: &Verdicts,
        moment: Moment,
    ) -> Result<Vec<RouteAction>, Memory>
        ensures { IfOk result (λ actions. (h : History) (story : Story) → AreVerdictsOf verdicts.now filters.now h story → actions.items ≡ said.routed h self.now story moment) }
    {
        let mut actions = Vec::new(self.alloc);
        for (rule, zone) in self.scheme.as_slice().iter().zip(self.zones.iter()) {
            if applies(rule, zone, filters, verdicts, moment) {
                push_asked(&mut actions, rule)?;
                if rule.exit {
                    return Ok(actions);
                }
            }
        }
        Ok(actions)
    }
}

/// The actions of the rules of a scheme that apply to the story at the moment, as `Routes::route` gives them. Who
/// routes more than one story by a scheme makes its `Routes` once.
pub fn route(
    scheme: &Scheme,
    filters: &Filters,
    story: &Story,
    moment: Moment,
) -> Result<Actions, Memory>
    requires { IsTrue (said.is_scheme scheme.now) }
    ensures { IfOk result (λ actions. (h : History) → KeepsFacts filters.now h → actions ≡ said.routed h scheme.now story.now moment) }
{
    let routes = Routes::of(filters.allocator(), scheme.copy()?)?;
    routes.route(filters, story, moment)
}

/// The zones that the rules name, in order.
fn zones_of(alloc: Global, rules: &[Rule]) -> Result<Vec<TimeZone<'static>>, Memory>
    requires { IsTrue (list_all said.is_rule rules.now) }
    ensures { IfOk result (λ zones. AreZonesOf rules.now zones.items) }
{
    let mut zones = Vec::new(alloc);
    for rule in rules {
        let zone = zone_of(rule.zone.as_str());
        zones.push(zone)?;
    }
    Ok(zones)
}

fn applies(
    rule: &Rule,
    zone: &TimeZone<'_>,
    filters: &Filters,
    verdicts: &Verdicts,
    moment: Moment,
) -> bool
    requires { NamesZone rule.now.zone zone.now }
    ensures { (h : History) (story : Story) → AreVerdictsOf verdicts.now filters.now h story → result ≡ said.applies h story moment rule.now }
{
    passes(rule.filter, filters, verdicts) && is_in_span(rule, zone, moment)
}

fn passes(filter: Option<Name>, filters: &Filters, verdicts: &Verdicts) -> bool
    ensures { (h : History) (story : Story) → AreVerdictsOf verdicts.now filters.now h story → result ≡ said.passes h story filter }
{
    match filter {
        None => true,
        Some(filter) => filters.matches_with(&filter, verdicts),
    }
}
