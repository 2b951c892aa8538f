//! A store that is shipped again and again, beside its server.

use crate::store::{Keeping, open_files};
use command_words::{Job, Options, read_words};
use list_marks::Unnoticed;
use news_io::{Disk, FileDisk, Keeper, MemorySource, Sink, StdClock};
use news_pair::{OpenedPair, Pair};
use news_types::{Memory, Text};
use program_run::run;
use run_status::{Status, tell_status};
use spoken_devices::SpokenLink;
use std::alloc::Global;
use std::fs::File;
use std::net::{Net, TcpStream};
use std::rt::Files;
use std::sync::Wait;
use std::thread;
use std::time::{Clock, Duration};

/// What stays from one time to the next.
#[derive(Drop)]
struct Shipping<R> {
    /// The link to the standby, whose connection is kept.
    links: Vec<SpokenLink<R>>,
    /// How many records the files had when the standby was last said to have them all; nothing where it was not.
    level: Option<u64>,
}

/// Ships the store that the words name to its standby, again and again, with so many seconds from one time to the next, and gives the
/// status with which that ended. It goes on behind a link that failed, a reply that is none, a lock that is held and want of memory: all
/// may be otherwise the next time. Files that do not serve, and an output that failed, end it.
///
/// Each time the files are opened anew, beside whoever serves them. Where they have as many records as the standby, nothing is sent.
pub fn ship_each<
    R: Files<File = File> + Net<Stream = TcpStream> + Clock + Eprint + Clone + Drop + Wait,
    O: Sink,
>(
    rt: &R,
    alloc: Global,
    words: &[Text],
    options: Options,
    seconds: u32,
    output: &mut O,
    link: SpokenLink<R>,
) -> u8 {
    let Some(Job::Ship(_)) = read_words(words) else {
        return tell_status(output, Status::Usage);
    };
    if options.key.is_some() {
        return tell_status(output, Status::Usage);
    }
    let mut links = Vec::new(alloc);
    if links.push(link).is_err() {
        return tell_status(output, Status::Memory);
    }
    let mut shipping = Shipping { links, level: None };
    let beside = Options {
        beside: true,
        ..options
    };
    for _ in rt.forever() {
        let status = match ship_new(rt, alloc, words, beside, output, &mut shipping) {
            Ok(status) => status,
            Err(Memory) => tell_status(output, Status::Memory),
        };
        if is_last(status) {
            return status;
        }
        thread::sleep(rt, Duration::from_secs(seconds as u64));
    }
    unreachable!()
}

/// Whether a status is the same the next time, or cannot be told any more.
fn is_last(status: u8) -> bool {
    status == Status::WrongStore.number()
        || status == Status::Output.number()
        || status == Status::Store.number()
        || status == Status::Damaged { at: 0, found: None }.number()
}

/// Ships the store once, if it has other than so many records as the standby, and gives the status.
fn ship_new<
    R: Files<File = File> + Net<Stream = TcpStream> + Clock + Eprint + Clone + Drop,
    O: Sink,
>(
    rt: &R,
    alloc: Global,
    words: &[Text],
    options: Options,
    output: &mut O,
    shipping: &mut Shipping<R>,
) -> Result<u8, Memory> {
    let (log, side) = match open_files(rt, alloc, words, Keeping::Reads, options) {
        Ok(files) => files,
        Err(status) => return Ok(tell_status(output, status)),
    };
    let (count, log, side) = count_records(alloc, log, side);
    if count.is_some() && count == shipping.level {
        return Ok(Status::Done.number());
    }
    let mut input = MemorySource::new(Vec::new(alloc));
    let mut clock = StdClock::new(rt.clone()?);
    let (status, log, _) = run(
        alloc,
        words,
        &mut input,
        output,
        log,
        side,
        &mut clock,
        &mut shipping.links,
        &mut Unnoticed,
    );
    if log.has_refused_write() {
        let _ = eprintln!(rt;
            "newsdesk: the last packing was cut short: `newsdesk pack STORE` puts the log right"
        );
    }
    // What the server kept meanwhile is looked for the next time.
    shipping.level = if status == Status::Done.number() {
        count
    } else {
        None
    };
    Ok(status)
}

/// How many records a store has, where its files are a pair.
fn count_records<D: Disk>(alloc: Global, log: D, side: D) -> (Option<u64>, D, D) {
    match Pair::open(alloc, log, side) {
        Ok(
            OpenedPair {
                pair,
                header: _,
                records,
            },
        ) => {
            let count = records.as_slice().len() as u64;
            let (log, side) = pair.into_disks();
            (Some(count), log, side)
        }
        Err((log, side, _)) => (None, log, side),
    }
}
