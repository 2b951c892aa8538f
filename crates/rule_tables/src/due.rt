//! To whom a publication is due, and when it is released to each.
ghost use Rattle.std.specs.Prelude.{◌≡◌, ℕ, List, IfOk, map, max, min, unwrap_or};
ghost use Rattle.news_types.specs.History.{History};
ghost use Rattle.news_types.specs.Products as facts;
ghost use Rattle.news_types.specs.Due.{Pub, release_to, release_for, due_at};
ghost use Rattle.news_types.specs.Due as publications;
ghost use Rattle.products.specs.Asked.{AreEarlier, AreDue};
ghost use Rattle.rule_tables.specs.Keeps.{KeepsRules};
ghost use Rattle.rule_tables.specs.Releases.{AreLatest, subscribers_in};

use crate::rules::Rules;
use news_types::{Due, Kind, Memory, Moment, Name, Names, Story};
use std::alloc::Global;

/// The last second of the year 9999.
const LAST_MOMENT: Moment = 253_402_300_799;

impl Rules {
    /// The names to whom a publication is due, in byte order. `earlier` has those whom it reaches whatever is permitted.
    pub fn due_list(
        &self,
        story: &Story,
        targets: &[Name],
        earlier: &[Name],
        kind: Kind,
    ) -> Result<Names, Memory>
        ensures { IfOk result (λ names. (h : History) (ps : List Pub) (i release : ℕ) → KeepsRules self.now h → AreEarlier earlier.now ps kind i release → AreDue names h ps kind i story.now release targets.now) }
    {
        self.products
            .due_list(&self.filters, story, targets, earlier, kind)
    }

    /// These names, each with the release of a publication for it. `latest` has the latest releases of what a correction follows.
    pub fn releases(
        &self,
        alloc: Global,
        names: &[Name],
        latest: &[Due],
        kind: Kind,
        release: Moment,
    ) -> Result<Vec<Due>, Memory>
        ensures names { IfOk result (λ due. subscribers_in due.items ≡ names.now) }
        ensures each { IfOk result (λ due. (h : History) (ps : List Pub) (i : ℕ) → KeepsRules self.now h → AreLatest kind latest.now ps i → due.items ≡ map (due_at h ps kind i release) names.now) }
    {
        let mut due = Vec::new(alloc);
        for name in names.iter() {
            let one = Due {
                subscriber: *name,
                release: self.release_for(name, latest, kind, release),
            };
            due.push(one)?;
        }
        Ok(due)
    }

    // The release of a publication for a subscriber. It takes no memory.
    fn release_for(&self, subscriber: &Name, latest: &[Due], kind: Kind, release: Moment) -> Moment
        ensures { (h : History) (ps : List Pub) (i : ℕ) → KeepsRules self.now h → AreLatest kind latest.now ps i → result ≡ release_for h ps kind i release subscriber.now }
    {
        match kind {
            Kind::First => self.lagged(subscriber, release, 0),
            Kind::Correct => self.lagged(subscriber, release, release_of(latest, subscriber)),
            Kind::Kill => release,
            Kind::Recall => release,
        }
    }

    // The release with the subscriber's lag, and no earlier than the other moment. It takes no memory.
    fn lagged(&self, subscriber: &Name, release: Moment, earlier: Moment) -> Moment
        ensures { (h : History) → KeepsRules self.now h → result ≡ publications.lagged release (facts.lag h subscriber.now) earlier }
    {
        later(release, self.products.lag(subscriber), earlier)
    }
}

// The release with a lag, and no earlier than the other moment.
fn later(release: Moment, lag: u32, earlier: Moment) -> Moment
    ensures { result ≡ publications.lagged release lag earlier }
{
    release.max(earlier.max(release.saturating_add(u64::from(lag)).min(LAST_MOMENT)))
}

// The release for the subscriber among these, 0 where it is not there.
fn release_of(due: &[Due], subscriber: &Name) -> Moment
    ensures { result ≡ unwrap_or (release_to subscriber.now due.now) 0 }
{
    for one in due.iter() {
        if *subscriber == one.subscriber {
            return one.release;
        }
    }
    0
}
