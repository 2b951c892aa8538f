//! The metrics of a server, from its room and its counts.
ghost use Rattle.std.specs.Prelude.{◌≡◌, IfOk, map};
ghost use Rattle.news_types.specs.History.{History};
ghost use Rattle.news_types.specs.Publications.{item_count};
ghost use Rattle.news_types.specs.Books.{Book};
ghost use Rattle.story_tables.specs.Keeps.{KeepsStories};
ghost use Rattle.news_room.specs.Stands.{Stands, SomeBook};
ghost use Rattle.server_metrics.specs.Measured.{checked_of, feed_gauges};
ghost use Rattle.server_metrics.specs.Metrics.{metrics};
ghost use Rattle.server_metrics.specs.Rows.{row_gauge};

use crate::feeds::FeedGauge;
use crate::measured::{Checked, age_since, gauges_of, is_paused, moment_at};
use crate::written::write_metrics;
use news_io::Keeper;
use news_room::Room;
use news_types::{Answer, Bytes, Memory, Moment, Query, QueueRow};
use server_counts::Counts;
use std::alloc::Global;
use story_tables::Stories;

/// The metrics of a server: its room at a reading of the clock, in seconds, and its counts since its start. Each family is
/// two lines that say what it is, and then a line for each sample; a family with no sample is left out. The feeds come in byte
/// order of their subscribers. Nothing is changed; the only error is want of memory.
pub fn metrics_text<K: Keeper>(
    alloc: Global,
    room: &Room<K>,
    now: u64,
    counts: &Counts,
) -> Result<Bytes, Memory>
    requires { SomeBook K.keeper room.now }
    ensures { IfOk result (λ text. (b : Book) → Stands K.keeper room.now b → text ≡ metrics b.list now (K.keeper.used room.now.keeper) counts.now) }
{
    let checked = check(room)?;
    let gauges = gauges_of(checked, item_count(room), room.size());
    let feeds = feed_gauges(alloc, room, moment_at(checked, now))?;
    write_metrics(alloc, &gauges, &feeds, counts)
}

/// What a check of the room answers.
fn check<K: Keeper>(room: &Room<K>) -> Result<Checked, Memory>
    requires { SomeBook K.keeper room.now }
    ensures { IfOk result (λ found. (b : Book) → Stands K.keeper room.now b → found ≡ checked_of b.list) }
{
    let answer = room.ask(&Query::Check)?;
    match answer {
        Answer::Check {
            entries,
            moment,
            publications,
        } => Ok(Checked {
            entries,
            moment,
            publications,
        }),
        _ => unreachable!(),
    }
}

/// How many items a room has.
fn item_count<K: Keeper>(room: &Room<K>) -> u32
    requires { SomeBook K.keeper room.now }
    ensures { (b : Book) → Stands K.keeper room.now b → result ≡ item_count b.list }
{
    room.newsroom().stories().item_count()
}

/// How the feeds of a room fare at a moment.
fn feed_gauges<K: Keeper>(
    alloc: Global,
    room: &Room<K>,
    moment: Moment,
) -> Result<Vec<FeedGauge>, Memory>
    requires { SomeBook K.keeper room.now }
    ensures { IfOk result (λ feeds. (b : Book) → Stands K.keeper room.now b → feeds.items ≡ feed_gauges b.list moment) }
{
    let answer = room.ask(&Query::Queue)?;
    match answer {
        Answer::Queue(rows) => row_gauges(
            alloc,
            room.newsroom().stories(),
            rows.as_slice(),
            moment,
        ),
        _ => unreachable!(),
    }
}

/// How the feeds of these rows fare at a moment.
fn row_gauges(
    alloc: Global,
    stories: &Stories,
    rows: &[QueueRow],
    moment: Moment,
) -> Result<Vec<FeedGauge>, Memory>
    ensures { IfOk result (λ feeds. (h : History) → KeepsStories stories.now h → feeds.items ≡ map (row_gauge h moment) rows.now) }
{
    let mut feeds = Vec::new(alloc);
    for row in rows {
        feeds.push(row_gauge(stories, row, moment))?;
    }
    Ok(feeds)
}

/// How the feed of a row fares at a moment.
fn row_gauge(stories: &Stories, row: &QueueRow, moment: Moment) -> FeedGauge
    ensures { (h : History) → KeepsStories stories.now h → result ≡ row_gauge h moment row.now }
{
    FeedGauge {
        subscriber: row.subscriber,
        length: row.length,
        acked: row.acked,
        tries: row.tries,
        paused: is_paused(row.state),
        oldest: age_since(moment, stories.oldest(&row.subscriber)),
    }
}
