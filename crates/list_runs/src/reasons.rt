//! The reasons of a publication for a subscriber.
ghost use Rattle.std.specs.Prelude.{◌≡◌, ◌<◌, ℕ, Some, length, All, IfOk};
ghost use Rattle.news_types.specs.History.{History};
ghost use Rattle.news_types.specs.Due.{Pub, shown};
ghost use Rattle.news_types.specs.Publications.{pubs};
ghost use Rattle.feed_reasons.specs.Courses.{numbered};
ghost use Rattle.feed_reasons.specs.Reasons.{reasons_of, made_behind, says_due};
ghost use Rattle.feed_reasons.specs.Verdicts.{says_permitted};
ghost use Rattle.newsroom.specs.Stands.{Stands, StandsFor};
ghost use Rattle.story_tables.specs.Pages.{publication_of};
ghost use Rattle.list_runs.specs.Lists.{AreOf};
ghost use Rattle.list_runs.specs.Making.{IsMaking, judged_of};
ghost use Rattle.list_runs.specs.Why.{reasons_in};

use crate::making::{Making, find_making};
use crate::terms::terms_of;
use desk_questions::course;
use feed_reasons::{Course, Verdict};
use news_io::Record;
use news_types::{Kind, Memory, Name};
use newsroom::Newsroom;
use publications::Published;
use std::alloc::Global;

/// What was found of a publication for a subscriber.
#[derive(Drop)]
pub(crate) struct Found {
    pub(crate) kind: Kind,
    pub(crate) verdict: Verdict,
    pub(crate) had: bool,
    pub(crate) course: Course,
}

/// What the rules said of a publication when it was made, and whether something of its item was due before.
#[derive(Drop)]
pub(crate) struct Judged {
    pub(crate) verdict: Verdict,
    pub(crate) had: bool,
}

impl Found {
    /// Whether the publication is due, by these reasons.
    pub(crate) fn says_due(&self) -> bool
        ensures { result ≡ says_due (reasons_in self.now) }
    {
        match self.kind {
            Kind::First => permits(&self.verdict),
            Kind::Correct => permits(&self.verdict) || self.had,
            Kind::Kill | Kind::Recall => self.had,
        }
    }
}

/// Whether a verdict permits a story.
fn permits(verdict: &Verdict) -> bool
    ensures { result ≡ says_permitted verdict.now }
{
    matches!(verdict, Verdict::Permitted { .. })
}

/// The reasons of the publication of that number, of which this is kept, for a subscriber.
pub(crate) fn find_reasons(
    alloc: Global,
    newsroom: &Newsroom,
    records: &[Record],
    publication: u32,
    published: &Published,
    subscriber: &Name,
) -> Result<Found, Memory>
    requires few { length records.now < 2147483648 }
    requires places { All (λ r. r.at < 4294967296) records.now }
    requires some { 0 < publication }
    ensures { IfOk result (λ found. (h : History) (p : Pub) → StandsFor newsroom.now h → AreOf records.now h → numbered publication (pubs h) ≡ Some p
        → publication_of publication published.now ≡ shown p → reasons_in found ≡ reasons_of h (made_behind publication h) subscriber.now p) }
{
    let making = find_making(alloc, newsroom.store(), records, publication)?;
    let judged = judge(alloc, &making, published, subscriber);
    drop(making);
    let Judged { verdict, had } = judged?;
    Ok(Found {
        kind: published.kind,
        verdict,
        had,
        course: course(newsroom, publication, subscriber),
    })
}

/// What the rules said of it.
fn judge(
    alloc: Global,
    making: &Making,
    published: &Published,
    subscriber: &Name,
) -> Result<Judged, Memory>
    requires { Stands making.now.replay.machine }
    ensures { IfOk result (λ judged. (n : ℕ) (h : History) (p : Pub) → (making_is : IsMaking n h making.now.replay.machine making.now.entry) → numbered n (pubs h) ≡ Some p
        → publication_of n published.now ≡ shown p → judged ≡ judged_of making_is.list subscriber.now p) }
{
    let then = making.replay.newsroom();
    let terms = terms_of(alloc, then, &making.entry, subscriber)?;
    let rules = then.rules();
    let verdicts = rules.judge_story(published.story.as_story())?;
    let verdict = rules.verdict_on(&verdicts, terms.targets.as_slice(), subscriber)?;
    Ok(Judged {
        verdict,
        had: terms.had,
    })
}
