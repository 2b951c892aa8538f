//! Between which moments what stands of an item is released.
ghost use Rattle.std.specs.Prelude.{◌≡◌, List, [], ◌∷◌, IfOk, OnOk};
ghost use Rattle.std.specs.Option.{option_or};
ghost use Rattle.std.specs.HashMap.{get};
ghost use Rattle.news_types.specs.declared.query.Due.{Due};
ghost use Rattle.news_types.specs.Names.{Bytes, same};
ghost use Rattle.news_types.specs.Due.{Pub, release_to};
ghost use Rattle.publications.specs.Keeps.{Keeps as KeepsPublications};
ghost use Rattle.story_tables.specs.Feeds.{spans_of, last_release, AreReleases, AreSpansOf};

use crate::stories::Stories;
use news_types::{Due, Memory, Moment, Name};
use publish_queue::Span;
use std::alloc::Global;
use std::collections::HashMap;

impl Stories {
    /// For each to whom something that stands of the item is due, from the first release to the latest.
    pub(crate) fn spans(&self, item: u32) -> Result<Vec<Span>, Memory>
        ensures { (ps st : List Pub) → KeepsPublications self.now.publications ps st → IfOk result (λ spans. AreSpansOf spans.items st item) }
    {
        let soonest = self.publications.soonest(item);
        spans_of(self.alloc, soonest, self.publications.newest(item))
    }
}

/// From the first release for each subscriber to the newest.
fn spans_of(alloc: Global, soonest: &[Due], newest: &[Due]) -> Result<Vec<Span>, Memory>
    ensures { IfOk result (λ spans. spans.items ≡ spans_of soonest.now newest.now) }
{
    let releases = releases_of(alloc, newest)?;
    let mut spans = Vec::new(alloc);
    for one in soonest {
        spans.push(Span {
            subscriber: one.subscriber,
            first: one.release,
            last: last_release(&releases, &one.subscriber),
        })?;
    }
    Ok(spans)
}

/// The release to each subscriber.
fn releases_of(alloc: Global, due: &[Due]) -> Result<HashMap<Name, Moment>, Memory>
    ensures { IfOk result (λ releases. AreReleases releases due.now) }
{
    let mut releases = HashMap::new(alloc);
    for one in due {
        put_new(&mut releases, one)?;
    }
    Ok(releases)
}

/// Puts the release to one more subscriber, unless one to it is there.
fn put_new(releases: &mut HashMap<Name, Moment>, one: &Due) -> Result<(), Memory>
    ensures { OnOk result ((s : Bytes) → get same releases.new s ≡ option_or (get same releases.old s) (release_to s (one.now ∷ []))) }
{
    if !releases.contains_key(&one.subscriber) {
        releases.insert(one.subscriber, one.release)?;
    }
    Ok(())
}

/// The release to a subscriber, or 0 where nothing is due to it.
fn last_release(releases: &HashMap<Name, Moment>, subscriber: &Name) -> Moment
    ensures { (newest : List Due) → AreReleases releases.now newest → result ≡ last_release newest subscriber.now }
{
    match releases.get(subscriber) {
        Some(release) => *release,
        None => 0,
    }
}
