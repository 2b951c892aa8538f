//! What a receiver holds, as its file's bytes say.

use news_io::MemoryDisk;
use news_journal::{Journal, Opened};
use std::alloc::Global;
use std::io::{self, ErrorKind};

/// The number in decimal at the front of some bytes.
fn number_at(bytes: &[u8]) -> u32 {
    let mut number = 0_u32;
    for byte in bytes {
        if !byte.is_ascii_digit() {
            return number;
        }
        number = number
            .saturating_mul(10)
            .saturating_add(u32::from(byte - b'0'));
    }
    number
}

/// The number behind the first place of a word, 0 where it is not there.
fn number_behind(bytes: &[u8], word: &[u8]) -> u32 {
    for at in 0..bytes.len() {
        if bytes[at..].starts_with(word) {
            return number_at(&bytes[at..][word.len()..]);
        }
    }
    0
}

/// Prints how many frames a receiver's file holds, and the number of each one's story. Frames that are not numbered from 1
/// on are invalid data.
pub fn print_held<R: Print>(
    rt: &R,
    alloc: Global,
    name: &str,
    disk: &MemoryDisk,
) -> io::Result<()> {
    let Ok(disk) = MemoryDisk::holding(alloc, disk.as_bytes()) else {
        return Err(io::Error::from(ErrorKind::OutOfMemory));
    };
    let Ok(Opened { records, .. }) = Journal::open(alloc, disk) else {
        return Err(io::Error::from(ErrorKind::InvalidData));
    };
    let heading = format!(in alloc; "FRAME {name} ")?;
    let mut line = format!(in alloc; "{name} holds {}:", records.as_slice().len())?;
    let mut last = 0_u32;
    for record in records.as_slice() {
        let frame = record.bytes.as_slice();
        if number_behind(frame, heading.as_bytes()) != last.saturating_add(1) {
            return Err(io::Error::from(ErrorKind::InvalidData));
        }
        last = last.saturating_add(1);
        line.push_str(format!(in alloc; " {}", number_behind(frame, b"Story "))?.as_str())?;
    }
    println!(rt; "{}", line.as_str())
}
