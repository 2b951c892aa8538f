//! The report on a feed is written page by page.
ghost use Rattle.std.specs.Prelude.{◌≡◌, ◌+◌, ◌^◌, ◌<◌, ◌≤◌, IfOk, IfSome, MatchOption};
ghost use Rattle.news_types.specs.Books.{Book};
ghost use Rattle.news_room.specs.Stands.{Stands, SomeBook};
ghost use Rattle.room_reports.specs.Reports.{IsReport};
ghost use Rattle.room_reports.specs.Texts.{feed_report_at, unknown_line as line_of_unknown};
ghost use Rattle.room_reports.specs.Parts.{IsLater, IsPage, Writes};

use crate::output::{tell_end, write_part};
use crate::release::release;
use desk_answers::denial_text;
use feed_reports::feed_text;
use news_io::{Clock, Keeper, Sink};
use news_room::Room;
use news_types::{Answer, Bytes, Denial, Memory, Name, Query, Thing};
use run_status::Status;
use std::alloc::Global;

/// The most entries of a feed that a question is answered.
const PAGE: u32 = 100;

/// The next lines of a report on a feed.
#[derive(Drop)]
struct Page {
    text: Bytes,
    /// Behind how many entries the next page begins, if there is one.
    next: Option<u32>,
}

/// Behind how many entries the next page begins, if the feed has any there.
fn next_page(after: u32, length: u32) -> Option<u32>
    ensures follows { MatchOption result (length ≤ after + 100) (λ next. (next ≡ after + 100) × (next < length)) }
    ensures fits { IfSome result (λ next. next < 2 ^ 32) }
{
    if after < length.saturating_sub(PAGE) {
        Some(after + PAGE)
    } else {
        None
    }
}

/// That nobody is known by the name that was asked for, as a line.
fn unknown_line(alloc: Global) -> Result<Bytes, Memory>
    ensures { IfOk result (λ line. line ≡ line_of_unknown) }
{
    let denial = Denial::UnknownThing {
        thing: Thing::Subscriber,
    };
    let mut line = denial_text(alloc, &denial)?.into_vec();
    line.push(b'\n')?;
    Ok(Bytes::of(line))
}

/// The page of the report on a subscriber's feed behind its first entries, so many.
fn feed_page<K: Keeper>(
    alloc: Global,
    room: &Room<K>,
    subscriber: Name,
    after: u32,
) -> Result<Page, Memory>
    requires { SomeBook K.keeper room.now }
    ensures page { IfOk result (λ page. (b : Book) → Stands K.keeper room.now b → IsPage subscriber after b.list page) }
    ensures later { IfOk result (λ page. IsLater after page.next) }
{
    let answer = room.ask(&Query::Feed { subscriber, after })?;
    match answer {
        Answer::Feed {
            length,
            entries,
            ..
        } => Ok(Page {
            text: feed_text(alloc, entries.as_slice())?,
            next: next_page(after, length),
        }),
        _ => Ok(Page {
            text: unknown_line(alloc)?,
            next: None,
        }),
    }
}

/// Writes the report on a subscriber's feed behind its first entries, so many. No more than a page of it is in memory.
#[tactic(none)]
fn write_feed<O: Sink, K: Keeper>(
    alloc: Global,
    output: &mut O,
    room: &Room<K>,
    subscriber: Name,
    after: u32,
) -> Result<(), Status>
    requires { SomeBook K.keeper room.now }
    ensures { (b : Book) → Stands K.keeper room.now b → Writes O.sink (feed_report_at subscriber after b.list) output.old output.new result }
{
    let mut from = after;
    'pages: loop {
        let Ok(page) = feed_page(alloc, room, subscriber, from) else {
            return Err(Status::Memory);
        };
        write_part(output, page.text.as_slice())?;
        let Some(next) = page.next else {
            return Ok(());
        };
        from = next;
    }
}

/// Ticks, and then writes the report on a subscriber's feed behind its first entries, so many, and gives the status.
///
/// It reads the clock once, in seconds, and asks for the feed page by page. The status is 0 where all of the report was
/// written and has passed on, 5 where the output failed, and 9 where there was no memory, behind the lines that were written
/// until then. Where the tick failed it is 6, and 8 where the tick's entry would pass the limit: then there is no report.
/// The statuses 6, 8 and 9 are told as a line.
#[tactic(none)]
pub fn tell_feed<O: Sink, K: Keeper, C: Clock>(
    alloc: Global,
    output: &mut O,
    room: &mut Room<K>,
    clock: &mut C,
    subscriber: Name,
    after: u32,
) -> u8
    requires { SomeBook K.keeper room.old }
    ensures { IsReport K.keeper C.clock O.sink (feed_report_at subscriber after) room.old room.new clock.old clock.new output.old output.new result }
{
    match release(room, clock) {
        Ok(()) => {
            let written = write_feed(alloc, output, room, subscriber, after);
            tell_end(output, written)
        }
        Err(status) => tell_end(output, Err(status)),
    }
}
