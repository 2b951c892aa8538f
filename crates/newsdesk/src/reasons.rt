//! Why a command ended as it did, in words.

use crate::usage::tell_usage;
use error_lines::{say, tell};
use news_types::Text;
use run_status::Status;
use std::fmt::{self, Display, Formatter, Write};
use std::time::Clock;

/// How a command ended.
#[derive(Clone, Copy)]
pub struct Ending {
    pub status: u8,
    /// Whether standard error has said why.
    pub is_told: bool,
}

impl Ending {
    /// With this status, of which nothing was said.
    pub fn untold(status: u8) -> Ending {
        Ending {
            status,
            is_told: false,
        }
    }
}

/// What ended so, and why.
#[derive(Clone, Copy)]
struct Reason<'a> {
    what: &'a str,
    why: &'a str,
}

impl Display for Reason<'_> {
    fn fmt<W: Write>(&self, f: &mut Formatter<W>) -> fmt::Result {
        write!(f, "{}: {}", self.what, self.why)
    }
}

/// Says on standard error why a command ended with a status other than 0, and what to do, unless that was said.
pub fn tell_reason<R: Clock + Eprint>(rt: &R, words: &[Text], ending: Ending) {
    if ending.is_told {
        return;
    }
    if ending.status == Status::Usage.number() {
        tell_usage(rt, words);
        return;
    }
    let [command, store, ..] = words else {
        return;
    };
    let (command, store) = (command.as_str(), store.as_str());
    // `COMMAND --help` has no store.
    if store.starts_with("--") {
        return;
    }
    let Some(why) = reason_of(command, ending.status) else {
        return;
    };
    match command {
        "serve" => tell(rt, store, "", &why),
        "drill" => say(rt, &Reason { what: command, why }),
        _ => say(rt, &Reason { what: store, why }),
    }
}

/// What a status says of a command's store.
fn reason_of(command: &str, status: u8) -> Option<&'static str> {
    let number = |of: Status| of.number();
    match status {
        _ if status == number(Status::WrongStore) => Some(wrong_store(command)),
        _ if status == number(Status::Input) => Some(input(command)),
        _ if status == number(Status::Output) => Some(
            "standard output could not be written; what was kept stays kept, the last answers may be lost",
        ),
        _ if status == number(Status::Store) => Some(
            "a file of the store could not be opened, locked, read or written: look at the disk and at its permissions",
        ),
        _ if status == number(Status::Damaged { at: 0, found: None }) => Some(
            "the log or its side is not of its form, at the place that the last line names: keep both files as they are, and see \"Status 7\" in docs/OPERATING.md",
        ),
        _ if status == number(Status::Full) => {
            Some("the next entry would pass the limit: see \"Limits\" in docs/OPERATING.md")
        }
        _ if status == number(Status::Memory) => {
            Some("there was not enough memory; what was answered is kept: run it again with more")
        }
        _ if status == number(Status::Link) => Some(link(command)),
        _ if status == number(Status::NoReceipt) => Some(no_receipt(command)),
        _ if status == number(Status::TooLong) => Some(too_long(command)),
        _ if status == number(Status::BadFrame { at: 0 }) => Some(
            "the input goes on with what is no frame or record, at the place that the last line names",
        ),
        _ if status == number(Status::BadHead) => Some(
            "the table has no head: its first record has to be `subscriber,format,products,lag`",
        ),
        _ if status == number(Status::Held) => Some(
            "another program has the store: wait for it, or begin with --wait; `lsof` tells which it is",
        ),
        _ => None,
    }
}

/// What is wrong with a store that is not the one that a command wants.
fn wrong_store(command: &str) -> &'static str {
    match command {
        "init" =>
            "the store or its side is there already, and holds something: nothing was changed",
        "ask" | "digest" => {
            "no newsroom's log is there, or its list has fewer entries than ENTRIES: `newsdesk check` tells how many"
        }
        "receive" => "the file is a newsroom's or another receiver's",
        "stand-in" => "the files are another store's, or a side is there without its log",
        _ => {
            "no newsroom's log is there: it is missing, empty or a receiver's, or its side is another store's: `newsdesk init STORE UUID` makes one"
        }
    }
}

/// What could not be read.
fn input(command: &str) -> &'static str {
    match command {
        "serve" => "connections could not be taken at its address: look at who listens there",
        "import" | "package" => {
            "standard input could not be read, and nothing was asked: give it again"
        }
        "ingest" => {
            "standard input could not be read: of a wire what was answered is kept, of items nothing was taken in"
        }
        _ => "standard input could not be read; what was answered is kept: send the rest again",
    }
}

/// Who could not be reached.
fn link(command: &str) -> &'static str {
    match command {
        "ship" => {
            "the standby could not be reached or did not answer; what it said that it has is kept: run it again"
        }
        _ => {
            "a receiver could not be reached or did not answer: behind its delay the next `drain` tries it again"
        }
    }
}

/// Who answered something else.
fn no_receipt(command: &str) -> &'static str {
    match command {
        "ship" => "the standby answered with nothing that fits: look at what its `stand-in` said",
        _ => "a receiver answered with no receipt: look at what listens at its address",
    }
}

/// What was too long.
fn too_long(command: &str) -> &'static str {
    match command {
        "import" => {
            "the table has more than 4,194,304 bytes, and nothing was asked: cut it in two, each with its head"
        }
        "package" => "the input has more bytes than a package may have, and nothing was asked",
        "ingest" => {
            "the input is too long: of a wire what was answered is kept, of items nothing was taken in"
        }
        _ => "the input is too long; what was answered is kept: send the rest by itself",
    }
}
