//! Days and spans of the local day.
ghost use Rattle.std.specs.Prelude.{◌≡◌, ◌<◌, ◌==◌};
ghost use Rattle.std.specs.Int.{bit_at};
ghost use Rattle.news_types.specs.Clock.{local_at};
ghost use Rattle.news_types.specs.Routing as said;
ghost use Rattle.routing_rules.specs.Zones.{NamesZone};

use crate::zone::local;
use jiff::tz::TimeZone;
use news_types::{Moment, Rule};

/// Whether the local weekday at the moment, in the rule's zone, is one of the rule's days, and the local second lies in
/// its span.
pub(crate) fn is_in_span(rule: &Rule, zone: &TimeZone<'_>, moment: Moment) -> bool
    requires { NamesZone rule.now.zone zone.now }
    ensures { result ≡ said.is_in_span rule.now (local_at rule.now.zone moment) }
{
    let (weekday, second) = local(zone, moment);
    has_day(rule.days, weekday) && rule.from <= second && second < rule.to
}

/// Whether the day, from 0 for Monday, is one of these.
fn has_day(days: u8, weekday: u8) -> bool
    requires { weekday < 7 }
    ensures { result ≡ (bit_at days weekday == 1) }
{
    (days >> weekday) & 1 == 1
}
