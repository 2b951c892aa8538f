//! A newsroom in memory that is asked over HTTP, at standard input and output.
//!
//! - Without a word it reads a table of connections (`table.rt`), and prints what each is answered.
//! - `one` serves one connection: its bytes come in and its responses go out as they are.
//! - `more` does the same, and where the connection has had its 64 requests it goes on as with the next one.
//!
//! Two numbers may stand behind these words: how many bytes the log uses before the first request, and which append to it
//! fails, 0 for none.
//!
//! A newsroom begins without an entry, in the store `6ba7b810-9dad-11d1-80b4-00c04fd430c8`. Its log is a list of records in
//! memory, and its clock shows 1000 at the first request and a second more at each of the next 63.
#![tactic(auto)]

mod hoard;
mod rooms;
mod starved;
mod streams;
mod table;

use std::env;
use std::io::{self, ErrorKind};
use streams::serve_streams;
use table::serve_table;

/// The bytes that an empty log uses, its header and its first gate.
const EMPTY_LOG: u64 = 65;

fn main(rt: HostRuntime) -> io::Result<()> {
    let mut words = env::args(&rt)?.skip(1);
    let Some(word) = words.next() else {
        return serve_table(&rt);
    };
    let used = number_in(words.next(), EMPTY_LOG)?;
    let failing = number_in(words.next(), 0)?;
    match word.as_str() {
        "one" => serve_streams(&rt, used, failing, false),
        "more" => serve_streams(&rt, used, failing, true),
        _ => Err(invalid()),
    }
}

fn invalid() -> io::Error {
    io::Error::from(ErrorKind::InvalidInput)
}

/// The number that a word says, or another where there is no word.
fn number_in(word: Option<String>, or: u64) -> io::Result<u64> {
    let Some(word) = word else {
        return Ok(or);
    };
    match word.as_str().parse() {
        Ok(number) => Ok(number),
        Err(_) => Err(invalid()),
    }
}
