//! The report on all feeds.
ghost use Rattle.std.specs.Prelude.{◌≡◌, IfOk};
ghost use Rattle.news_types.specs.Books.{Book};
ghost use Rattle.news_room.specs.Stands.{Stands, SomeBook};
ghost use Rattle.room_reports.specs.Reports.{IsReport};
ghost use Rattle.room_reports.specs.Texts.{queue_report_at};
ghost use Rattle.room_reports.specs.Parts.{Writes};

use crate::output::{tell_end, write_part};
use crate::release::release;
use feed_reports::queue_text;
use news_io::{Clock, Keeper, Sink};
use news_room::Room;
use news_types::{Answer, Bytes, Memory, Query};
use run_status::Status;
use std::alloc::Global;

/// The lines of all feeds.
fn queue_lines<K: Keeper>(alloc: Global, room: &Room<K>) -> Result<Bytes, Memory>
    requires { SomeBook K.keeper room.now }
    ensures { IfOk result (λ lines. (b : Book) → Stands K.keeper room.now b → lines ≡ queue_report_at b.list) }
{
    let answer = room.ask(&Query::Queue)?;
    match answer {
        Answer::Queue(rows) => queue_text(alloc, rows.as_slice()),
        _ => unreachable!(),
    }
}

/// Writes the report on all feeds.
#[tactic(none)]
fn write_queue<O: Sink, K: Keeper>(
    alloc: Global,
    output: &mut O,
    room: &Room<K>,
) -> Result<(), Status>
    requires { SomeBook K.keeper room.now }
    ensures { (b : Book) → Stands K.keeper room.now b → Writes O.sink (queue_report_at b.list) output.old output.new result }
{
    let Ok(lines) = queue_lines(alloc, room) else {
        return Err(Status::Memory);
    };
    write_part(output, lines.as_slice())
}

/// Ticks, and then writes the report on all feeds, and gives the status.
///
/// It reads the clock once, in seconds. The statuses are those of the report on one feed.
#[tactic(none)]
pub fn tell_queue<O: Sink, K: Keeper, C: Clock>(
    alloc: Global,
    output: &mut O,
    room: &mut Room<K>,
    clock: &mut C,
) -> u8
    requires { SomeBook K.keeper room.old }
    ensures { IsReport K.keeper C.clock O.sink queue_report_at room.old room.new clock.old clock.new output.old output.new result }
{
    match release(room, clock) {
        Ok(()) => {
            let written = write_queue(alloc, output, room);
            tell_end(output, written)
        }
        Err(status) => tell_end(output, Err(status)),
    }
}
