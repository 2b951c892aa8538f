//! Whom a publication of an item would reach.
ghost use Rattle.std.specs.Prelude.{◌≡◌, IfOk, map};
ghost use Rattle.news_types.specs.History.{History};
ghost use Rattle.newsroom.specs.Stands.{StandsFor};
ghost use Rattle.desk_views.specs.Reach.{reach};
ghost use Rattle.desk_questions.specs.Reach.{reach_bytes, reached_in};
ghost use Rattle.desk_questions.specs.Told.{reach_told};

use crate::answer::DeskTold;
use crate::reached::ReachLine;
use news_types::{Bytes, Memory, Name, Story, Thing};
use newsroom::Newsroom;
use std::alloc::Global;
use told_objects::Object;

/// Whom a publication of the item as it is would reach, with these targets, and what keeps it from the others, or which thing
/// that is named is not there.
pub(crate) fn tell_reach(
    alloc: Global,
    newsroom: &Newsroom,
    item: u32,
    targets: &[Name],
) -> Result<DeskTold, Memory>
    ensures { IfOk result (λ told. (h : History) → StandsFor newsroom.now h
        → told ≡ reach_told h item targets.now) }
{
    let Some(story) = newsroom.stories().story(item) else {
        return Ok(DeskTold::Unknown(Thing::Item));
    };
    if !newsroom.stories().has_feeds(targets) {
        return Ok(DeskTold::Unknown(Thing::Subscriber));
    }
    let rows = lines_of(alloc, newsroom, item, story, targets)?;
    Ok(DeskTold::Found(reach_object(alloc, &rows)?))
}

/// What holds of these subscribers, as an object.
fn reach_object(alloc: Global, rows: &[ReachLine]) -> Result<Bytes, Memory>
    ensures { IfOk result (λ bytes. bytes ≡ reach_bytes (map reached_in rows.now)) }
{
    Object::answering(alloc, "reach")?
        .list("rows", rows)?
        .written()
}

/// What holds of each subscriber. What the filters say of the story is found once for all of them.
fn lines_of(
    alloc: Global,
    newsroom: &Newsroom,
    item: u32,
    story: &Story,
    targets: &[Name],
) -> Result<Vec<ReachLine>, Memory>
    ensures { IfOk result (λ rows. (h : History) → StandsFor newsroom.now h
        → map reached_in rows.items ≡ reach h item story.now targets.now) }
{
    let rules = newsroom.rules();
    let stories = newsroom.stories();
    let verdicts = rules.judge_story(story)?;
    let mut rows = Vec::new(alloc);
    for subscriber in stories.subscribers() {
        let verdict = rules.verdict_on(&verdicts, targets, subscriber)?;
        rows.push(ReachLine {
            subscriber: *subscriber,
            verdict,
            had: stories.had(item, subscriber),
        })?;
    }
    Ok(rows)
}
