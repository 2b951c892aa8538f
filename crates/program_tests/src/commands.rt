//! Commands over two disks, an input and an output in memory.

use list_marks::Unnoticed;
use news_io::{Link, MemoryClock, MemoryDisk, MemorySink, MemorySource, UnreachableLink};
use news_types::{Memory, Text};
use newsdesk_cli::run;
use std::alloc::Global;

/// A store without an entry: the log of 6ba7b810-9dad-11d1-80b4-00c04fd430c8. Its side is empty.
pub(crate) const NEW: &[u8] =
    b"NEWSDESK\x02\x01\0\0\0\0\0\0\x6b\xa7\xb8\x10\x9d\xad\x11\xd1\x80\xb4\0\xc0\x4f\xd4\x30\xc8\0\0\0\0\0\0\0\0\0\0\0\0\0\0\0\0\0\0\0\0\0\0\0\0\0\0\0\0\0\0\0\0\0";

/// What a command left.
#[derive(Drop)]
pub(crate) struct Left {
    pub(crate) status: u8,
    pub(crate) output: MemorySink,
    pub(crate) log: MemoryDisk,
    pub(crate) side: MemoryDisk,
}

/// The words of a line, with one space between them.
pub(crate) fn words_of(alloc: Global, line: &str) -> Result<Vec<Text>, Memory> {
    let mut words = Vec::new(alloc);
    for word in line.split(' ') {
        words.push(Text::copy_of(alloc, word)?)?;
    }
    Ok(words)
}

/// An input of these bytes.
pub(crate) fn source_of(alloc: Global, bytes: &[u8]) -> Result<MemorySource, Memory> {
    Ok(MemorySource::new(bytes.to_vec(alloc)?))
}

/// One number of a call.
pub(crate) fn number(alloc: Global, call: u64) -> Result<Vec<u64>, Memory> {
    Ok(vec![in alloc; call]?)
}

/// Runs a command at the readings of a clock.
pub(crate) fn done_at<L: Link>(
    alloc: Global,
    words: &str,
    streams: (MemorySource, MemorySink),
    disks: (MemoryDisk, MemoryDisk),
    mut clock: MemoryClock,
    links: &mut Vec<L>,
) -> Result<Left, Memory> {
    let words = words_of(alloc, words)?;
    let (mut input, mut output) = streams;
    let (log, side) = disks;
    let (status, log, side) = run(
        alloc,
        &words,
        &mut input,
        &mut output,
        log,
        side,
        &mut clock,
        links,
        &mut Unnoticed,
    );
    if status == 9 {
        return Err(Memory);
    }
    Ok(Left {
        status,
        output,
        log,
        side,
    })
}

/// Runs a command at 1000, without a link.
pub(crate) fn done(
    alloc: Global,
    words: &str,
    streams: (MemorySource, MemorySink),
    disks: (MemoryDisk, MemoryDisk),
) -> Result<Left, Memory> {
    let clock = MemoryClock::new(vec![in alloc; 1000]?);
    let mut links: Vec<UnreachableLink> = Vec::new(alloc);
    done_at(alloc, words, streams, disks, clock, &mut links)
}

/// Runs a command over this input and this log at 1000, with an empty side and an output that takes all.
pub(crate) fn done_with(
    alloc: Global,
    words: &str,
    input: &[u8],
    log: MemoryDisk,
) -> Result<Left, Memory> {
    let streams = (source_of(alloc, input)?, MemorySink::new(alloc));
    done(alloc, words, streams, (log, MemoryDisk::new(alloc)))
}
