//! The first reason to deny a new scheme or a new provider.
ghost use Rattle.std.specs.Prelude.{◌≡◌, Option, true, flat_map, is_some};
ghost use Rattle.news_types.specs.Names.{Bytes};
ghost use Rattle.news_types.specs.History.{History};
ghost use Rattle.news_types.specs.Filters.{is_filter};
ghost use Rattle.news_types.specs.Routing.{is_scheme, scheme as scheme_of};
ghost use Rattle.news_types.specs.declared.words.Thing.TheVariants as thing;
ghost use Rattle.news_types.specs.Denial as denial;
ghost use Rattle.news_types.specs.declared.command.Command.TheVariants as command;
ghost use Rattle.content_filters.specs.Reasons.{denial_by};
ghost use Rattle.content_filters.specs.Asked.{first_thing};
ghost use Rattle.rule_tables.specs.Keeps.{KeepsRules};
ghost use Rattle.rule_tables.specs.Sources.{is_source_command};

use crate::rules::Rules;
use news_types::{Command, Denial, Name, Place, Rule, Scheme, Thing};
use routing_rules::judge_scheme;

/// How many schemes there may be.
const MOST_SCHEMES: u32 = 64;

/// How many providers there may be.
const MOST_PROVIDERS: u32 = 256;

impl Rules {
    /// The first reason to deny a command that adds a scheme or a provider. It takes no memory.
    pub fn sources_denied(&self, command: &Command) -> Option<Denial>
        ensures { (h : History) → KeepsRules self.now h → is_source_command command.now ≡ true → result ≡ denial_by h command.now }
    {
        match command {
            Command::AddScheme { scheme, rules } => self.scheme_denied(scheme, rules),
            Command::AddProvider { provider, scheme } => self.provider_denied(provider, scheme),
            _ => None,
        }
    }

    /// The first reason to deny a new scheme.
    fn scheme_denied(&self, name: &Name, rules: &Scheme) -> Option<Denial>
        ensures { (h : History) → KeepsRules self.now h → result ≡ denial_by h (command.AddScheme name.now rules.now) }
    {
        if let Some(denial) = self.unknown_in(rules.as_slice()) {
            return Some(denial);
        }
        if self.sources.has_scheme(name) {
            return Some(Denial::NameTaken);
        }
        if !is_scheme(rules) {
            return Some(Denial::BadOperand);
        }
        Denial::unless_below(Thing::Scheme, self.sources.schemes.len(), MOST_SCHEMES)
    }

    /// The first reason to deny a new provider.
    fn provider_denied(&self, name: &Name, scheme: &Option<Name>) -> Option<Denial>
        ensures { (h : History) → KeepsRules self.now h → result ≡ denial_by h (command.AddProvider name.now scheme.now) }
    {
        if let Some(denial) = Denial::unless_there(Thing::Scheme, self.has_given(scheme)) {
            return Some(denial);
        }
        if self.sources.has_provider(name) {
            return Some(Denial::NameTaken);
        }
        Denial::unless_below(
            Thing::Provider,
            self.sources.providers.len(),
            MOST_PROVIDERS,
        )
    }

    /// Whether the scheme is there, if one is given.
    fn has_given(&self, scheme: &Option<Name>) -> bool
        ensures { (h : History) → KeepsRules self.now h → denial.first_missing (denial.absent result thing.Scheme) ≡ denial.first_missing (denial.absent_if_given (λ name. is_some (scheme_of h name)) thing.Scheme scheme.now) }
    {
        match scheme {
            Some(name) => self.sources.has_scheme(name),
            None => true,
        }
    }

    /// That a rule names something that is not there.
    fn unknown_in(&self, rules: &[Rule]) -> Option<Denial>
        ensures { (h : History) → KeepsRules self.now h → result ≡ denial.first_missing (flat_map (denial.absent_in_rule h) rules.now) }
    {
        for rule in rules.iter() {
            if let Some(thing) = self.unknown_in_rule(rule) {
                return Some(Denial::UnknownThing { thing });
            }
        }
        None
    }

    /// The first that a rule names and that is not there.
    fn unknown_in_rule(&self, rule: &Rule) -> Option<Thing>
        ensures { (h : History) → KeepsRules self.now h → result ≡ first_thing (denial.absent_in_rule h rule.now) }
    {
        if !self.has_filter(rule.filter) {
            return Some(Thing::Filter);
        }
        self.unknown_place(rule.fetch)
    }

    /// Whether the filter is there, if one is given.
    fn has_filter(&self, filter: Option<Name>) -> bool
        ensures { (h : History) → KeepsRules self.now h → first_thing (denial.absent result thing.Filter) ≡ first_thing (denial.absent_if_given (is_filter h) thing.Filter filter) }
    {
        match filter {
            Some(filter) => self.filters.has(&filter),
            None => true,
        }
    }

    /// What of the place is not there, if one is given.
    fn unknown_place(&self, place: Option<Place>) -> Option<Thing>
        ensures { (h : History) → KeepsRules self.now h → result ≡ first_thing (denial.absent_in_fetch h place) }
    {
        self.desks.missing(&place?)
    }
}

/// Whether the scheme may be given.
fn is_scheme(rules: &Scheme) -> bool
    ensures { result ≡ is_scheme rules.now }
{
    match judge_scheme(rules) {
        Ok(may) => may,
        Err(_) => unreachable!(),
    }
}
