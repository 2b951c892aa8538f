//! Whether a scheme may be given.
ghost use Rattle.std.specs.Prelude.{◌≡◌, Ok};
ghost use Rattle.std.specs.List.{list_all};
ghost use Rattle.news_types.specs.Routing as said;

use crate::zone::is_zone;
use news_types::{Memory, Rule, Scheme};

/// The seconds of a day.
const DAY: u32 = 86_400;

/// Whether the scheme may be given: it has a rule, and each rule has a day, a span that begins before it ends and ends
/// with the day at the latest, a fetch if it publishes, and a zone.
///
/// It takes no memory, so it is always answered.
pub fn judge_scheme(scheme: &Scheme) -> Result<bool, Memory>
    ensures { result ≡ Ok (said.is_scheme scheme.now) }
{
    Ok(is_scheme(scheme.as_slice()))
}

fn is_scheme(rules: &[Rule]) -> bool
    ensures { result ≡ said.is_scheme rules.now }
{
    !rules.is_empty() && are_rules(rules)
}

fn are_rules(rules: &[Rule]) -> bool
    ensures { result ≡ list_all said.is_rule rules.now }
{
    rules.iter().all(|rule| is_rule(rule))
}

fn is_rule(rule: &Rule) -> bool
    ensures { result ≡ said.is_rule rule.now }
{
    rule.days > 0
        && rule.from < rule.to
        && rule.to <= DAY
        && (!rule.publish || rule.fetch.is_some())
        && is_zone(rule.zone.as_str())
}
