//! What a command ends with.
ghost use Rattle.std.specs.Prelude.{◌≡◌, ◌≤◌, ◌+◌, ◌++◌, length};
ghost use Rattle.run_status.specs.Status.{number_of, line_of, place_of, byte_or_null};

use byte_formats::SmallBytes;

/// What a command ends with, and why.
#[derive(Clone, Copy, Debug, PartialEq, Eq)]
pub enum Status {
    /// All was done.
    Done,
    /// The words are no command.
    Usage,
    /// The log is empty where one is wanted, or a file holds something where none does; or they are not a newsroom's log and
    /// its side, or not this receiver's log.
    WrongStore,
    /// The input failed.
    Input,
    /// The output failed.
    Output,
    /// A disk failed.
    Store,
    /// The log's bytes show that the two files are no newsroom's list.
    Damaged {
        /// The place that shows it, in bytes from the log's start.
        at: u64,
        /// The byte there, or nothing where the log or a payload ends.
        found: Option<u8>,
    },
    /// The side's bytes show it.
    DamagedSide {
        /// The place that shows it, in bytes from the side's start.
        at: u64,
        /// The byte there, or nothing where the side or a payload ends.
        found: Option<u8>,
    },
    /// What would be kept next passes the limit of its file.
    Full,
    /// There was no memory.
    Memory,
    /// A link failed at an attempt to deliver.
    Link,
    /// A receiver answered an attempt to deliver with no receipt of what it was sent.
    NoReceipt,
    /// The input has too many bytes.
    TooLong,
    /// What follows the last whole frame of the input is no frame.
    BadFrame {
        /// The first byte with which no frame goes on, in bytes from the input's start; the input's length where it ends
        /// within a frame.
        at: u64,
    },
    /// The first record of a table is missing, or is not its head.
    BadHead,
    /// Another program has the store, and nothing of it was read or written.
    Held,
}

/// The longest line: the words, and two numbers.
const LINE: usize = 80;

fn push_byte_or_null(line: &mut SmallBytes<LINE>, byte: Option<u8>)
    requires { length line.old + 20 ≤ 80 }
    ensures bytes { line.new ≡ line.old ++ byte_or_null byte }
    ensures few { length line.new ≤ length line.old + 20 }
{
    match byte {
        Some(byte) => line.push_decimal(byte as u64),
        None => line.push_slice(b"null"),
    }
}

fn push_place(line: &mut SmallBytes<LINE>, at: u64, found: Option<u8>)
    requires { length line.old + 55 ≤ 80 }
    ensures bytes { line.new ≡ line.old ++ place_of at found }
    ensures few { length line.new ≤ length line.old + 55 }
{
    line.push_slice(b"{\"at\":");
    line.push_decimal(at);
    line.push_slice(b",\"found\":");
    push_byte_or_null(line, found);
}

impl Status {
    /// The exit status of the process.
    pub fn number(self) -> u8
        ensures { result ≡ number_of self }
    {
        match self {
            Status::Done => 0,
            Status::Usage => 2,
            Status::WrongStore => 3,
            Status::Input => 4,
            Status::Output => 5,
            Status::Store => 6,
            Status::Damaged { .. } | Status::DamagedSide { .. } => 7,
            Status::Full => 8,
            Status::Memory => 9,
            Status::Link => 10,
            Status::NoReceipt => 11,
            Status::TooLong => 12,
            Status::BadFrame { .. } => 13,
            Status::BadHead => 14,
            Status::Held => 15,
        }
    }

    /// The line that tells it: none where all was done, and none for a failed output.
    pub fn line(self) -> SmallBytes<LINE>
        ensures { result ≡ line_of self }
    {
        let mut line: SmallBytes<LINE> = SmallBytes::new();
        match self {
            Status::Done | Status::Output => {}
            Status::Usage => line.push_slice(b"{\"status\":2}\n"),
            Status::WrongStore => line.push_slice(b"{\"status\":3}\n"),
            Status::Input => line.push_slice(b"{\"status\":4}\n"),
            Status::Store => line.push_slice(b"{\"status\":6}\n"),
            Status::Damaged { at, found } => {
                push_place(&mut line, at, found);
                line.push_slice(b",\"status\":7}\n");
            }
            Status::DamagedSide { at, found } => {
                push_place(&mut line, at, found);
                line.push_slice(b",\"side\":true,\"status\":7}\n");
            }
            Status::Full => line.push_slice(b"{\"status\":8}\n"),
            Status::Memory => line.push_slice(b"{\"status\":9}\n"),
            Status::Link => line.push_slice(b"{\"status\":10}\n"),
            Status::NoReceipt => line.push_slice(b"{\"status\":11}\n"),
            Status::TooLong => line.push_slice(b"{\"status\":12}\n"),
            Status::BadFrame { at } => {
                line.push_slice(b"{\"at\":");
                line.push_decimal(at);
                line.push_slice(b",\"status\":13}\n");
            }
            Status::BadHead => line.push_slice(b"{\"status\":14}\n"),
            Status::Held => line.push_slice(b"{\"status\":15}\n"),
        }
        line
    }
}
