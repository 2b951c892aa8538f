//! The key that a server asks for.

use error_lines::tell;
use news_types::{Memory, Text};
use run_status::Status;
use std::alloc::Global;
use std::fs::File;
use std::io::{self, Read};
use std::rt::Files;
use std::time::Clock;

/// The longest key.
const MOST_KEY: usize = 1024;

/// As many bytes of its file are read: the longest key and an end of its line, of two bytes at most.
const MOST_READ: u64 = 1026;

/// What is said of a file without one.
const NO_KEY: &str = "its first line is none, which has 1 to 1,024 bytes from `!` to `~`";

/// The key in this file, or the status that says why there is none. Standard error says it in words.
pub fn read_key<R: Files<File = File> + Clock + Eprint>(
    rt: &R,
    alloc: Global,
    path: &str,
) -> Result<Text, Status> {
    let bytes = match read_front(rt, alloc, path) {
        Ok(bytes) => bytes,
        Err(error) => {
            tell(rt, "the key in", path, &error);
            return Err(Status::Store);
        }
    };
    let Some(key) = key_in(bytes.as_slice()) else {
        tell(rt, "the key in", path, &NO_KEY);
        return Err(Status::Usage);
    };
    match Text::copy_of(alloc, key) {
        Ok(key) => Ok(key),
        Err(Memory) => Err(Status::Memory),
    }
}

/// The first bytes of a file.
fn read_front<R: Files<File = File>>(rt: &R, alloc: Global, path: &str) -> io::Result<Vec<u8>> {
    let mut bytes = Vec::new(alloc);
    File::open(rt, path)?
        .take(MOST_READ)
        .read_to_end(&mut bytes)?;
    Ok(bytes)
}

/// The key that the first line of these bytes is, without the end of the line; nothing where it is none.
fn key_in(bytes: &[u8]) -> Option<&str> {
    let line = bytes.split(|byte| *byte == b'\n').next()?;
    let line = std::str::from_utf8(line).ok()?;
    let key = line.strip_suffix('\r').unwrap_or(line);
    if key.is_empty() || key.len() > MOST_KEY || !key.bytes().all(|byte| byte.is_ascii_graphic()) {
        return None;
    }
    Some(key)
}
