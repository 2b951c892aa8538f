//! What a command line does.
ghost use Rattle.std.specs.Prelude.{◌≡◌, ◌+◌, List, [], Some, IfOk, IsTrue, length};
ghost use Rattle.news_io.specs.Faults.{Counts};
ghost use Rattle.news_journal.specs.Opened.{Still};
ghost use Rattle.news_types.specs.History.{History};
ghost use Rattle.news_types.specs.Frames.{Frame};
ghost use Rattle.news_types.specs.Names.{Bytes};
ghost use Rattle.receiver_files.specs.Log.{Gives};
ghost use Rattle.receiver_files.specs.Receive.{IsReceive, IsServed};
ghost use Rattle.room_reports.specs.Texts.{feed_report_at, queue_report_at};
ghost use Rattle.store_files.specs.Store.{Opens};
ghost use Rattle.command_words.specs.Words.{job_of};
ghost use Rattle.newsdesk_cli.specs.Command.{IsInit, IsBatch, IsReportOf, IsDrain, IsDrilled, IsCheck, IsPack, Does, Serves, ReceiverServes, StandbyServes, UsesLinks};

use crate::archive::ask_archive;
use crate::ask::ask_past;
use crate::audit::audit_list;
use crate::check::check_line;
use crate::contents::list_contents;
use crate::digest::digest_list;
use crate::import::take_table;
use crate::ingest::ingest;
use crate::limits::list_limits;
use crate::opening::open_noticed;
use crate::pack::tell_packed;
use crate::package::take_package;
use crate::standby::ship_list;
use crate::telling::{tell_trouble, tell_usage};
use crate::why::explain;
use command_words::{Job, read_words};
use feed_drill::run_drill;
use list_marks::Notices;
use news_io::{Clock, Disk, Failed, Keeper, Link, Sink, Source};
use news_journal::{Header, Journal};
use news_types::{Name, Text};
use publish_workers::drain_links;
use receiver_files::receive_frames;
use room_reports::{tell_feed, tell_queue};
use room_runs::answer_input;
use run_status::tell_status;
use standby_files::stand_in;
use std::alloc::Global;
use store_files::{Trouble, is_empty};
use uuid::Uuid;

/// Does what the words ask for, and gives the status and the two disks back, the log's and the side's. Only `drain` and `ship` use
/// the links, `ship` the first one, which has to serve its NAME; for `receive` the log is a receiver's, and `drill` leaves both alone.
/// The notices hear of a newsroom's store that was opened, but for `limits` and what is asked of a list's past.
#[tactic(none)]
pub fn run<S: Source, O: Sink, D: Disk, C: Clock, L: Link, N: Notices>(
    alloc: Global,
    words: &[Text],
    input: &mut S,
    output: &mut O,
    log: D,
    side: D,
    clock: &mut C,
    links: &mut Vec<L>,
    notices: &mut N,
) -> (u8, D, D)
    ensures does { Does D.disk C.clock S.source O.sink L.link log result.1 side result.2 input.old input.new output.old output.new clock.old clock.new links.old.items links.new.items result.0 (job_of words.now) }
    // Files that open to a list are never told to be another store's, but where `ask` is given more entries than it has, nor damaged; and a
    // failed disk is told only where one has failed.
    ensures serves { D.disk.tells log → D.disk.tells side → (store : Bytes) (h : History) → length store ≡ 16 → Opens (D.disk.seen log) (D.disk.seen side) store h
        → Serves (D.disk.faults log + D.disk.faults side) (D.disk.faults result.1 + D.disk.faults result.2) h (job_of words.now) result.0 }
    // A receiver's file that is empty or holds its frames is never told to be another's or damaged either.
    ensures receives { D.disk.tells log → ReceiverServes (D.disk.seen log) (D.disk.faults log) (D.disk.faults result.1) (job_of words.now) result.0 }
    // So it is with the files of a standby that are empty or hold its store's list.
    ensures stands_in { D.disk.tells log → D.disk.tells side → StandbyServes (D.disk.seen log) (D.disk.seen side) (D.disk.faults log + D.disk.faults side) (D.disk.faults result.1 + D.disk.faults result.2) (job_of words.now) result.0 }
    ensures links { (UsesLinks (job_of words.now) → ⊥) → links.new.items ≡ links.old.items }
{
    let Some(job) = read_words(words) else {
        return (tell_usage(output), log, side);
    };
    do_job(alloc, job, input, output, log, side, clock, links, notices)
}

/// Does what a command asks for.
#[tactic(none)]
fn do_job<S: Source, O: Sink, D: Disk, C: Clock, L: Link, N: Notices>(
    alloc: Global,
    job: Job<'_>,
    input: &mut S,
    output: &mut O,
    log: D,
    side: D,
    clock: &mut C,
    links: &mut Vec<L>,
    notices: &mut N,
) -> (u8, D, D)
    ensures does { Does D.disk C.clock S.source O.sink L.link log result.1 side result.2 input.old input.new output.old output.new clock.old clock.new links.old.items links.new.items result.0 (Some job.entry) }
    ensures receives { D.disk.tells log → ReceiverServes (D.disk.seen log) (D.disk.faults log) (D.disk.faults result.1) (Some job.entry) result.0 }
    ensures stands_in { D.disk.tells log → D.disk.tells side → StandbyServes (D.disk.seen log) (D.disk.seen side) (D.disk.faults log + D.disk.faults side) (D.disk.faults result.1 + D.disk.faults result.2) (Some job.entry) result.0 }
    ensures links { (UsesLinks (Some job.entry) → ⊥) → links.new.items ≡ links.old.items }
{
    match job {
        Job::Init(store) => init(output, log, side, store),
        Job::Batch => batch(alloc, input, output, log, side, clock, notices),
        Job::Ingest { format, provider } => {
            ingest(
                alloc, input, output, log, side, clock, format, provider, notices,
            )
        }
        Job::Import(caller) => take_table(alloc, input, output, log, side, clock, caller, notices),
        Job::Package { caller, number } => {
            take_package(
                alloc, input, output, log, side, clock, caller, number, notices,
            )
        }
        Job::Feed { subscriber, after } => feed(
            alloc, output, log, side, clock, subscriber, after, notices,
        ),
        Job::Queue => queue(alloc, output, log, side, clock, notices),
        Job::Archive { page, query } => {
            ask_archive(alloc, output, log, side, page, query.as_str(), notices)
        }
        Job::Contents(publication) => list_contents(alloc, output, log, side, publication, notices),
        Job::Audit(after) => audit_list(alloc, output, log, side, after),
        Job::Ask(entries) => ask_past(alloc, input, output, log, side, entries),
        Job::Digest(entries) => digest_list(alloc, output, log, side, entries),
        Job::Limits => list_limits(alloc, output, log, side),
        Job::Why {
            publication,
            subscriber,
        } => explain(alloc, output, log, side, publication, subscriber),
        Job::Drain => drain(alloc, output, log, side, clock, links, notices),
        Job::Receive(name) => receive(alloc, input, output, log, side, name),
        Job::Ship(name) => ship_list(alloc, output, log, side, links, name),
        Job::StandIn(store) => stand_in(alloc, store, input, output, log, side),
        Job::Drill { stories, seed } => drill(alloc, output, log, side, clock, stories, seed),
        Job::Check => check(alloc, output, log, side, notices),
        Job::Pack => pack(alloc, output, log, side, notices),
    }
}

/// Whether both files are empty.
fn are_empty<D: Disk>(log: &mut D, side: &mut D) -> Result<bool, Failed>
    ensures empty { D.disk.tells log.old → IfOk result (λ none. IsTrue none → D.disk.seen log.old ≡ []) }
    ensures empty_side { D.disk.tells side.old → IfOk result (λ none. IsTrue none → D.disk.seen side.old ≡ []) }
    ensures some { D.disk.tells log.old → D.disk.tells side.old → IfOk result (λ none. D.disk.seen log.old ≡ [] → D.disk.seen side.old ≡ [] → IsTrue none) }
    ensures still { Still D.disk log.old log.new }
    ensures still_side { Still D.disk side.old side.new }
    ensures count { Counts (D.disk.faults log.old + D.disk.faults side.old) (D.disk.faults log.new + D.disk.faults side.new) result }
{
    match is_empty(log) {
        Ok(true) => is_empty(side),
        Ok(false) => Ok(false),
        Err(failed) => Err(failed),
    }
}

/// Makes two empty files a store: the log is made, and the side is left empty.
#[tactic(none)]
fn init<O: Sink, D: Disk>(output: &mut O, mut log: D, mut side: D, store: Uuid) -> (u8, D, D)
    ensures { IsInit D.disk O.sink store log result.1 side result.2 output.old output.new result.0 }
{
    match are_empty(&mut log, &mut side) {
        Ok(true) => {}
        Ok(false) => return (tell_trouble(output, Trouble::WrongStore), log, side),
        Err(_) => return (tell_trouble(output, Trouble::Store), log, side),
    }
    match Journal::create(log, &Header::Room { store }) {
        Ok(journal) => (0, journal.into_disk(), side),
        Err((log, _)) => (tell_trouble(output, Trouble::Store), log, side),
    }
}

/// Answers the lines of the input.
#[tactic(none)]
fn batch<S: Source, O: Sink, D: Disk, C: Clock, N: Notices>(
    alloc: Global,
    input: &mut S,
    output: &mut O,
    log: D,
    side: D,
    clock: &mut C,
    notices: &mut N,
) -> (u8, D, D)
    ensures { IsBatch D.disk C.clock S.source O.sink log result.1 side result.2 input.old input.new output.old output.new clock.old clock.new result.0 }
{
    match open_noticed(alloc, log, side, notices) {
        Ok(mut room) => {
            let status = answer_input(alloc, input, output, &mut room, clock);
            let (log, side) = room.into_keeper().into_disks();
            (status, log, side)
        }
        Err((log, side, trouble)) => (tell_trouble(output, trouble), log, side),
    }
}

/// Releases what waits, and reports a subscriber's feed behind its first entries.
#[tactic(none)]
fn feed<O: Sink, D: Disk, C: Clock, N: Notices>(
    alloc: Global,
    output: &mut O,
    log: D,
    side: D,
    clock: &mut C,
    subscriber: Name,
    after: u32,
    notices: &mut N,
) -> (u8, D, D)
    ensures { IsReportOf D.disk C.clock O.sink log result.1 side result.2 output.old output.new clock.old clock.new result.0 (feed_report_at subscriber after) }
{
    match open_noticed(alloc, log, side, notices) {
        Ok(mut room) => {
            let status = tell_feed(alloc, output, &mut room, clock, subscriber, after);
            let (log, side) = room.into_keeper().into_disks();
            (status, log, side)
        }
        Err((log, side, trouble)) => (tell_trouble(output, trouble), log, side),
    }
}

/// Releases what waits, and reports all feeds.
#[tactic(none)]
fn queue<O: Sink, D: Disk, C: Clock, N: Notices>(
    alloc: Global,
    output: &mut O,
    log: D,
    side: D,
    clock: &mut C,
    notices: &mut N,
) -> (u8, D, D)
    ensures { IsReportOf D.disk C.clock O.sink log result.1 side result.2 output.old output.new clock.old clock.new result.0 queue_report_at }
{
    match open_noticed(alloc, log, side, notices) {
        Ok(mut room) => {
            let status = tell_queue(alloc, output, &mut room, clock);
            let (log, side) = room.into_keeper().into_disks();
            (status, log, side)
        }
        Err((log, side, trouble)) => (tell_trouble(output, trouble), log, side),
    }
}

/// Pushes what is due over the links.
#[tactic(none)]
fn drain<O: Sink, D: Disk, C: Clock, L: Link, N: Notices>(
    alloc: Global,
    output: &mut O,
    log: D,
    side: D,
    clock: &mut C,
    links: &mut Vec<L>,
    notices: &mut N,
) -> (u8, D, D)
    ensures { IsDrain D.disk C.clock O.sink log result.1 side result.2 output.old output.new clock.old clock.new result.0 L.link links.old.items links.new.items }
{
    match open_noticed(alloc, log, side, notices) {
        Ok(mut room) => {
            let status = drain_links(alloc, &mut room, clock, links.as_mut_slice(), output);
            let (log, side) = room.into_keeper().into_disks();
            (status, log, side)
        }
        Err((log, side, trouble)) => (tell_trouble(output, trouble), log, side),
    }
}

/// Takes the frames of the input as the receiver of this name, whose file is the log. The side is left alone.
#[tactic(none)]
fn receive<S: Source, O: Sink, D: Disk>(
    alloc: Global,
    input: &mut S,
    output: &mut O,
    log: D,
    side: D,
    name: Name,
) -> (u8, D, D)
    ensures received { IsReceive D.disk S.source O.sink name log result.1 input.old input.new output.old output.new result.0 }
    ensures side { result.2 ≡ side }
    ensures serves { D.disk.tells log → (frames : List Frame) → Gives name (D.disk.seen log) frames → IsServed (D.disk.faults log) (D.disk.faults result.1) result.0 }
{
    let (status, log) = receive_frames(alloc, input, output, log, name);
    (status, log, side)
}

/// Drills a newsroom in memory, and tells how that ended. The files are left alone; the clock is read once for each planned
/// request, and no reading is used.
#[tactic(none)]
fn drill<O: Sink, D: Disk, C: Clock>(
    alloc: Global,
    output: &mut O,
    log: D,
    side: D,
    clock: &mut C,
    stories: u32,
    seed: u64,
) -> (u8, D, D)
    ensures drilled { IsDrilled O.sink C.clock stories seed output.old output.new clock.old clock.new result.0 }
    ensures files { (result.1 ≡ log) × (result.2 ≡ side) }
{
    let ended = run_drill(alloc, stories, seed, clock, output);
    let status = tell_status(output, ended);
    (status, log, side)
}

/// Opens the log and its side, and says what they hold.
#[tactic(none)]
fn check<O: Sink, D: Disk, N: Notices>(
    alloc: Global,
    output: &mut O,
    log: D,
    side: D,
    notices: &mut N,
) -> (u8, D, D)
    ensures { IsCheck D.disk O.sink log result.1 side result.2 output.old output.new result.0 }
{
    match open_noticed(alloc, log, side, notices) {
        Ok(room) => {
            let status = check_line(alloc, output, &room);
            let (log, side) = room.into_keeper().into_disks();
            (status, log, side)
        }
        Err((log, side, trouble)) => (tell_trouble(output, trouble), log, side),
    }
}

/// Opens the log and its side, and packs them.
#[tactic(none)]
fn pack<O: Sink, D: Disk, N: Notices>(
    alloc: Global,
    output: &mut O,
    log: D,
    side: D,
    notices: &mut N,
) -> (u8, D, D)
    ensures { IsPack D.disk O.sink log result.1 side result.2 output.old output.new result.0 }
{
    let room = match open_noticed(alloc, log, side, notices) {
        Ok(room) => room,
        Err((log, side, trouble)) => return (tell_trouble(output, trouble), log, side),
    };
    match room.into_keeper().pack(alloc) {
        Ok((pair, count)) => {
            let status = tell_packed(output, count);
            let (log, side) = pair.into_disks();
            (status, log, side)
        }
        Err((log, side, fault)) => (tell_trouble(output, Trouble::from(fault)), log, side),
    }
}
