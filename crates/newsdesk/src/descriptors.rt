//! The standard descriptors that are closed where the program starts.

use std::alloc::Global;
use std::fs::{File, OpenOptions};
use std::io;
use std::os::fd::AsRawFd;
use std::rt::Files;

const NULL_DEVICE: &str = "/dev/null";

/// The last of the standard descriptors.
const STANDARD_ERROR: i32 = 2;

/// Opens the null device in the place of each standard descriptor that is closed, so that no file of the program gets its number, and
/// what is meant for it cannot go into a store: number 0 for writing alone, 1 and 2 for reading alone, so that a use of them fails as
/// that of a closed one does. They have to stay open as long as the program runs.
pub fn hold_descriptors<R: Files<File = File>>(rt: &R, alloc: Global) -> io::Result<Vec<File>> {
    let mut held = Vec::new(alloc);
    for _ in 0..=STANDARD_ERROR {
        let writer = OpenOptions::new().write(true).open(rt, NULL_DEVICE)?;
        let number = writer.as_raw_fd();
        if number > STANDARD_ERROR {
            return Ok(held);
        }
        if number == 0 {
            held.push(writer)?;
        } else {
            // The next opening is given the number that is closed here.
            drop(writer);
            held.push(File::open(rt, NULL_DEVICE)?)?;
        }
    }
    Ok(held)
}
