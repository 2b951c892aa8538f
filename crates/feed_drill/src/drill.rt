//! A drill.
ghost use Rattle.std.specs.Prelude.{◌≡◌, List, [], length, IfOk, OnOk, OnErr};
ghost use Rattle.news_types.specs.History.{History};
ghost use Rattle.news_types.specs.Books.{Book};
ghost use Rattle.news_types.specs.Answers.{queue_rows};
ghost use Rattle.news_io.specs.Devices.{memory_keeper};
ghost use Rattle.news_room.specs.Stands.{Stands, SomeBook};
ghost use Rattle.feed_receiver.specs.Holds.{Received};
ghost use Rattle.drill_plan.specs.Plan.{plan};
ghost use Rattle.feed_drill.specs.Report.{subscribers_of, drill_report};
ghost use Rattle.feed_drill.specs.Readings.{IsRead, IsReadAtMost, IsReadByDrill};
ghost use Rattle.feed_drill.specs.Drill.{IsDrill, Drills};

use crate::asking::ask_all;
use crate::delivery::{deliver, link_to_all};
use crate::report::report_text;
use crate::stopped::Stopped;
use drill_plan::Plan;
use news_io::{Clock, MemoryKeeper, Sink, write_through};
use news_room::Room;
use news_types::{Answer, Bytes, Memory, Query, QueueRows};
use run_status::Status;
use std::alloc::Global;
use uuid::Uuid;

/// A room in memory, whose store has the identifier zero.
fn open_room(alloc: Global) -> Result<Room<MemoryKeeper>, Memory>
    ensures { IfOk result (λ room. (b : Book) × Stands memory_keeper room b × (b.list ≡ [])) }
{
    match Room::open(alloc, MemoryKeeper::new(alloc), Uuid::nil(), &[]) {
        Ok(room) => Ok(room),
        Err(_) => Err(Memory),
    }
}

/// How the feeds of a room fare.
fn queue_of(room: &Room<MemoryKeeper>) -> Result<QueueRows, Memory>
    requires stands { SomeBook memory_keeper room.now }
    ensures { IfOk result (λ rows. (b : Book) → Stands memory_keeper room.now b → rows ≡ queue_rows b.list (subscribers_of b.list)) }
{
    match room.ask(&Query::Queue)? {
        Answer::Queue(rows) => Ok(rows),
        _ => unreachable!(),
    }
}

/// The report of a drill of so many stories with this seed. The clock is read once for each planned request.
fn drill<C: Clock>(alloc: Global, stories: u32, seed: u64, clock: &mut C) -> Result<Bytes, Stopped>
    ensures report { IfOk result (λ bytes. (h : History) × (held : List Received) × IsDrill stories seed h held × (bytes ≡ drill_report h held)) }
    ensures read { OnOk result (IsRead C.clock (length (plan stories seed)) clock.old clock.new) }
    ensures stopped { OnErr result (IsReadAtMost C.clock (length (plan stories seed)) clock.old clock.new) }
{
    let mut room = open_room(alloc)?;
    ask_all(&mut room, Plan::new(alloc, stories, seed)?, clock)?;
    let mut link = link_to_all(alloc, queue_of(&room)?.as_slice())?;
    deliver(alloc, &mut room, &mut link, 1100 + u64::from(stories))?;
    let rows = queue_of(&room)?;
    Ok(report_text(alloc, room.front(), rows.as_slice(), &link)?)
}

/// Takes the requests of a drill of so many stories with this seed into a newsroom in memory, delivers all of its feeds to
/// receivers in memory, and prints a report: how many entries the list has, and for each subscriber how long its feed is, how
/// many of its entries are acknowledged, and how many frames its receiver holds.
///
/// The drill's moments are its own, in seconds from the first of its plan on: no reading of the clock is used. It is read once for
/// each planned request, before it is asked, so that who passes it can tell by its readings how far the drill is. The delivery
/// behind the requests reads it no more.
///
/// Status 0 comes where the report was printed, 5 where the output failed at it. Without memory it is 9, and 8 where an entry
/// would pass the limit of the log: then nothing is printed.
pub fn run_drill<O: Sink, C: Clock>(
    alloc: Global,
    stories: u32,
    seed: u64,
    clock: &mut C,
    output: &mut O,
) -> Status
    ensures drilled { Drills O.sink stories seed output.old output.new result }
    ensures read { IsReadByDrill C.clock stories seed clock.old clock.new result }
{
    let report = match drill(alloc, stories, seed, clock) {
        Ok(report) => report,
        Err(Stopped::Full) => return Status::Full,
        Err(Stopped::Memory) => return Status::Memory,
    };
    match write_through(output, report.as_slice()) {
        Ok(()) => Status::Done,
        Err(_) => Status::Output,
    }
}
