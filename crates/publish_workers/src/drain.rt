//! Turns one after another, with a line of output for each attempt.
ghost use Rattle.std.specs.Prelude.{◌≡◌, ◌∷◌, List, IfErr, MatchResult, Some};
ghost use Rattle.news_types.specs.declared.entry.Entry.{Entry};
ghost use Rattle.news_types.specs.Books.{Book};
ghost use Rattle.news_room.specs.Stands.{Stands, SomeBook};
ghost use Rattle.publish_workers.specs.Turns.{Turn, word};
ghost use Rattle.publish_workers.specs.Links.{Passes, Reads, CountsFaults};
ghost use Rattle.publish_workers.specs.Drains.{report_of as report_of_word, line_of, lost_in, refused_in, end_of, IsEnd, is_store_end, is_output_end, CountsLink, IsLineFault, AllReported, all_frames, all_replies, all_passed, all_readings, lines_of, last_line, Prints, Writes, DrainHappens};

use crate::turn::deliver_turn;
use crate::worked::Worked;
use feed_reports::{Attempted, attempt_text};
use news_io::{Clock, Keeper, Link, Sink, write_through};
use news_room::Room;
use news_types::Name;
use std::alloc::Global;

/// How a drain ended.
#[derive(Clone, Copy, Debug, PartialEq, Eq)]
pub enum Drained {
    /// None of the feeds is ready.
    Idle {
        /// Whether the link failed at one of the attempts.
        link_failed: bool,
        /// Whether the reply to one of the frames was no receipt for it.
        no_receipt: bool,
    },
    /// The keeper has failed, and its count of faults has risen.
    StoreFault,
    /// The output has failed, and its count of faults has risen.
    OutputFault,
    /// An entry would pass the limit: it is not kept.
    Full {
        /// The bytes in use.
        size: u64,
        /// The length of the entry's payload in bytes.
        length: u64,
    },
    /// There is no memory for a frame or for a line of the output.
    Memory,
}

/// An attempt, as it is reported.
#[derive(Clone, Copy)]
pub(crate) struct Reported {
    subscriber: Name,
    k: u32,
    came: Attempted,
}

/// The report on a turn: nothing where the turn ends a drain.
fn report_of(worked: &Worked) -> Option<Reported>
    ensures { result ≡ report_of_word worked.now }
{
    match worked {
        Worked::Delivered { subscriber, k, .. } => Some(Reported {
            subscriber: *subscriber,
            k: *k,
            came: Attempted::Delivered,
        }),
        Worked::NoReceipt { subscriber, k, .. } => Some(Reported {
            subscriber: *subscriber,
            k: *k,
            came: Attempted::NoReceipt,
        }),
        Worked::LinkFault { subscriber, k } => Some(Reported {
            subscriber: *subscriber,
            k: *k,
            came: Attempted::LinkFault,
        }),
        Worked::Idle { .. } | Worked::StoreFault | Worked::Full { .. } | Worked::Memory => None,
    }
}

/// How a drain ends with a turn, if not at a line of the output.
fn ended(worked: Worked, link_failed: bool, no_receipt: bool) -> Drained
    ensures { result ≡ end_of worked link_failed no_receipt }
{
    match worked {
        Worked::Idle { .. } => Drained::Idle {
            link_failed,
            no_receipt,
        },
        Worked::StoreFault => Drained::StoreFault,
        Worked::Full { size, length } => Drained::Full { size, length },
        Worked::Delivered { .. }
        | Worked::NoReceipt { .. }
        | Worked::LinkFault { .. }
        | Worked::Memory => Drained::Memory,
    }
}

/// Writes the line of an attempt.
fn write_report<O: Sink>(alloc: Global, output: &mut O, reported: &Reported) -> Result<(), Drained>
    ensures fault { IfErr result IsLineFault }
    ensures count { MatchResult result (λ u. O.sink.faults output.new ≡ O.sink.faults output.old) (λ d. CountsFaults (is_output_end d) (O.sink.faults output.old) (O.sink.faults output.new)) }
    ensures writes { O.sink.tells output.old → Writes O.sink output.old output.new (line_of (Some reported.now)) result }
{
    let Ok(line) = attempt_text(alloc, &reported.subscriber, reported.k, reported.came) else {
        return Err(Drained::Memory);
    };
    match write_through(output, line.as_slice()) {
        Ok(()) => Ok(()),
        Err(_) => Err(Drained::OutputFault),
    }
}

/// Claims and sends one frame after another, until none of the feeds is ready, and writes a line for each attempt.
///
/// A failed attempt does not end it: its feed is not ready before its delay. It ends before that where the keeper or the
/// output fails, an entry would pass the limit, or there is no memory; what was kept until then stays kept.
#[tactic(none)]
pub fn drain_feeds<K: Keeper, C: Clock, L: Link, O: Sink>(
    alloc: Global,
    room: &mut Room<K>,
    clock: &mut C,
    link: &mut L,
    output: &mut O,
) -> Drained
    requires stands { SomeBook K.keeper room.old }
    // the turns, newest first, of which each but the last is an attempt that is reported
    ensures drain { (t : Turn) × (ts : List Turn) × AllReported ts × IsEnd (lost_in ts) (refused_in ts) (word t) result
        × ((more : List Entry) × ((b : Book) → Stands K.keeper room.old b
        → DrainHappens K.keeper room.old room.new b (L.link.serves link.old) t ts more))
        × (L.link.tells link.old → Passes L.link link.old link.new (all_frames (t ∷ ts)) (all_replies (t ∷ ts)) (all_passed (t ∷ ts)))
        × (C.clock.tells clock.old → Reads C.clock clock.old clock.new (all_readings (t ∷ ts)))
        × (O.sink.tells output.old → Prints O.sink output.old output.new (lines_of ts) (last_line t)) }
    ensures link_faults { CountsLink result (L.link.faults link.old) (L.link.faults link.new) }
    ensures store_faults { CountsFaults (is_store_end result) (K.keeper.faults room.old.keeper) (K.keeper.faults room.new.keeper) }
    ensures output_faults { CountsFaults (is_output_end result) (O.sink.faults output.old) (O.sink.faults output.new) }
    ensures serves { L.link.serves link.new ≡ L.link.serves link.old }
{
    let mut link_failed = false;
    let mut no_receipt = false;
    loop {
        let worked = deliver_turn(room, clock, link);
        let Some(reported) = report_of(&worked) else {
            return ended(worked, link_failed, no_receipt);
        };
        if let Err(drained) = write_report(alloc, output, &reported) {
            return drained;
        }
        link_failed |= worked.is_link_fault();
        no_receipt |= worked.is_no_receipt();
    }
}
