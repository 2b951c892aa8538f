//! One line.
ghost use Rattle.std.specs.Prelude.{◌<◌};

use release_rules::text_of_moment;
use std::fmt::{self, Display, Write};
use std::time::{Clock, SystemTime, UNIX_EPOCH};

/// The most bytes of a line, with its end.
const LONGEST: usize = 1000;

/// A line that is being written, with its end. What finds no room on it is left out, from the first such character on.
#[derive(Drop)]
struct Line {
    bytes: [u8; LONGEST],
    length: usize,
    ghost within: { length < 1000 },
}

impl Line {
    fn new() -> Line {
        Line {
            bytes: [b'\n'; LONGEST],
            length: 0,
        }
    }

    /// All of it, with its end.
    fn whole(&self) -> &str {
        std::str::from_utf8(&self.bytes[..self.length + 1]).unwrap_or("")
    }

    /// Puts bytes behind the others, where they leave room for the end of the line.
    fn put(&mut self, bytes: &[u8]) -> fmt::Result {
        let end = self.length + bytes.len().min(LONGEST);
        if end >= LONGEST {
            return Err(fmt::Error);
        }
        self.bytes[self.length..end].copy_from_slice(&bytes[..end - self.length]);
        self.length = end;
        Ok(())
    }
}

impl Write for Line {
    fn write_str(&mut self, text: &str) -> fmt::Result {
        for letter in text.chars() {
            let letter = if letter.is_control() { ' ' } else { letter };
            self.put(letter.encode_utf8(&mut [0; 4]).as_bytes())?;
        }
        Ok(())
    }
}

/// The seconds since 1970, 0 where the system gives no time.
fn seconds<R: Clock>(rt: &R) -> u64 {
    let Ok(now) = SystemTime::now(rt) else {
        return 0;
    };
    match now.duration_since(UNIX_EPOCH) {
        Ok(since) => since.as_secs(),
        Err(_) => 0,
    }
}

/// Says on standard error what failed, of whom, and why: `MOMENT newsdesk: WHAT WHOM: WHY`, the moment in UTC. A line has at most
/// 1,000 bytes and is written by one call; a control character in it is a space. Where it cannot be written, nothing is said.
pub fn tell<R: Clock + Eprint, D: Display>(rt: &R, what: &str, whom: &str, why: &D) {
    let mut line = Line::new();
    let moment = text_of_moment(seconds(rt));
    let space = if whom.is_empty() { "" } else { " " };
    let _ = write!(
        line,
        "{} newsdesk: {what}{space}{whom}: {why}",
        moment.as_str()
    );
    let _ = rt.eprint(line.whole());
}

/// Says on standard error what failed and why: `newsdesk: LINE`. A line has at most 1,000 bytes and is written by one call; a control
/// character in it is a space. Where it cannot be written, nothing is said.
pub fn say<R: Eprint, D: Display>(rt: &R, line: &D) {
    let mut whole = Line::new();
    let _ = write!(whole, "newsdesk: {line}");
    let _ = rt.eprint(whole.whole());
}

/// Says on standard error how a command is written, by its line of the help: `usage: LINE`. A line has at most 1,000 bytes and is
/// written by one call. Where it cannot be written, nothing is said.
pub fn say_usage<R: Eprint>(rt: &R, help: &str) {
    let mut line = Line::new();
    let _ = write!(line, "usage: {}", help.strip_suffix('\n').unwrap_or(help));
    let _ = rt.eprint(line.whole());
}
