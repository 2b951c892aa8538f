//! Sessions at a desk, over stores in memory and at moments that the input names: prints what the commands write.
//!
//! - `= new` ends the command before it, and begins a new store, which has a standby without files.
//! - `= over` ends the command before it, and lets the store and its standby change places.
//! - `@ M` ends the command before it; from here on the clock shows M, in seconds since 1970-01-01T00:00:00Z.
//! - `# text` ends the command before it, and is printed as it is.
//! - `$ WORDS` ends the command before it, and begins one of these words; `$ ` alone begins one without a word. The last word stands
//!   between `'` where it has spaces.
//! - `% TEXT` adds the bytes of a text to the command's input, in which `\` and two hexadecimal digits stand for a byte; `* N TEXT`
//!   adds them N times.
//! - `log TEXT` and `side TEXT` end the command before them; from here on the store's log, or its side, has the bytes of the text.
//! - `< log` and `< side` end the command before them, and print the bytes of that file as a text.
//! - `~ PLACE TEXT;PLACE TEXT` ends the command before it, and checks the store with the bytes of each text in the log from its
//!   place on. The log itself stays as it is.
//! - `passed` ends the command before it, and prints as texts what was sent to the standby (`>`) and answered (`<`) since the last one.
//! - `bytes N` ends the command before it, and prints as a text what that command put into the log, from the gate on behind which
//!   it was put, but no more than N bytes.
//! - Each other line is one of the command's input; without words the command is a batch.
//!
//! A command is done where it ends, and opens the store anew. What one says that ends with another status than 0 is printed as an
//! answer is.
#![tactic(auto)]

mod standby;
mod texts;

use list_marks::Unnoticed;
use news_io::{MemoryClock, MemoryDisk, MemorySink, MemorySource};
use news_types::{Memory, Name, Names, Text};
use newsdesk_cli::run;
use standby::{Standby, StandbyLink};
use std::alloc::Global;
use std::io::{self, ErrorKind, Write};
use std::mem;
use texts::{bytes_of, invalid, number_of, patched, text_of};

const INIT: &str = "init s 6ba7b810-9dad-11d1-80b4-00c04fd430c8";

const BATCH: &str = "batch s";

const CHECK: &str = "check s";

fn main(rt: HostRuntime) -> io::Result<()> {
    let mut session = Session::new(rt.alloc());
    for line in rt.lines(rt.alloc()) {
        session.take_line(&rt, line?.as_str())?;
    }
    session.end_command(&rt)
}

/// A store in memory, its clock, and the command whose input is being read.
#[derive(Drop)]
struct Session {
    alloc: Global,
    log: MemoryDisk,
    side: MemoryDisk,
    /// The store's standby, to which `ship` has a link.
    standby: Standby,
    /// What the clock shows, in seconds since 1970-01-01T00:00:00Z.
    moment: u64,
    /// The command's words, if they were given.
    words: Option<Vec<Text>>,
    /// Its input, each line with its line feed.
    input: Vec<u8>,
    /// Where the log's last gate was before the last command.
    gate: usize,
}

impl Session {
    /// Two empty disks, which are no store yet, at moment 0.
    fn new(alloc: Global) -> Session {
        Session {
            alloc,
            log: MemoryDisk::new(alloc),
            side: MemoryDisk::new(alloc),
            standby: Standby::new(alloc),
            moment: 0,
            words: None,
            input: Vec::new(alloc),
            gate: 0,
        }
    }

    /// Does what a line of the input says. A moment that is no number is invalid input.
    fn take_line<R: Print>(&mut self, rt: &R, line: &str) -> io::Result<()> {
        let (form, rest) = line.split_once(' ').unwrap_or((line, ""));
        match form {
            "%" => self.add_bytes(rest),
            "*" => self.add_repeated(rest),
            "#" | "@" | "=" | "$" | "log" | "side" | "<" | "~" | "passed" | "bytes" => {
                self.end_command(rt)?;
                self.take_between(rt, line, form, rest)
            }
            _ => self.add_line(line),
        }
    }

    /// Does what a line says that ends the command before it.
    fn take_between<R: Print>(
        &mut self,
        rt: &R,
        line: &str,
        form: &str,
        rest: &str,
    ) -> io::Result<()> {
        match form {
            "#" => println!(rt; "{line}"),
            "@" => self.set_clock(rest),
            "=" if rest == "over" => self.go_over(),
            "=" => self.begin_store(rt),
            "$" => self.begin_command(rest),
            "log" => self.set_log(rest),
            "side" => self.set_side(rest),
            "<" => self.print_file(rt, rest),
            "~" => self.check_patched(rt, rest),
            "passed" => io::writer(rt).write_all(&self.standby.take_passed()),
            _ => self.print_bytes(rt, rest),
        }
    }

    fn set_clock(&mut self, moment: &str) -> io::Result<()> {
        self.moment = number_of(moment)?;
        Ok(())
    }

    fn begin_command(&mut self, words: &str) -> io::Result<()> {
        self.words = Some(words_of(self.alloc, words)?);
        Ok(())
    }

    fn set_log(&mut self, text: &str) -> io::Result<()> {
        self.log = disk_of(self.alloc, &bytes_of(self.alloc, text)?)?;
        Ok(())
    }

    fn set_side(&mut self, text: &str) -> io::Result<()> {
        self.side = disk_of(self.alloc, &bytes_of(self.alloc, text)?)?;
        Ok(())
    }

    /// Prints the name of a file and its bytes.
    fn print_file<R: Print>(&self, rt: &R, name: &str) -> io::Result<()> {
        let file = match name {
            "log" => &self.log,
            _ => &self.side,
        };
        println!(rt; "{name} {}", text_of(self.alloc, file.as_bytes())?)
    }

    /// Checks the store with other bytes in places of its log.
    fn check_patched<R: Print>(&mut self, rt: &R, patches: &str) -> io::Result<()> {
        let bytes = patched(self.alloc, self.log.as_bytes(), patches)?;
        let words = words_of(self.alloc, CHECK)?;
        let log = mem::replace(&mut self.log, disk_of(self.alloc, &bytes)?);
        let printed = self.print_command(rt, &words, Vec::new(self.alloc));
        self.log = log;
        printed
    }

    /// Prints the first so many bytes that the last command put into the log.
    fn print_bytes<R: Print>(&self, rt: &R, most: &str) -> io::Result<()> {
        let most = number_of(most)? as usize;
        if let Some((_, put)) = self.log.as_bytes().split_at_checked(self.gate) {
            let (first, _) = put.split_at(most.min(put.len()));
            println!(rt; "{}", text_of(self.alloc, first)?)?;
        }
        Ok(())
    }

    /// The store and its standby change places.
    fn go_over(&mut self) -> io::Result<()> {
        mem::swap(&mut self.log, &mut self.standby.log);
        mem::swap(&mut self.side, &mut self.standby.side);
        Ok(())
    }

    fn begin_store<R: Print>(&mut self, rt: &R) -> io::Result<()> {
        self.log = MemoryDisk::new(self.alloc);
        self.side = MemoryDisk::new(self.alloc);
        self.standby = Standby::new(self.alloc);
        let words = words_of(self.alloc, INIT)?;
        self.print_command(rt, &words, Vec::new(self.alloc))
    }

    fn add_bytes(&mut self, text: &str) -> io::Result<()> {
        self.input.extend_from_slice(&bytes_of(self.alloc, text)?)?;
        Ok(())
    }

    /// Adds the bytes of a text so many times as the number before it says.
    fn add_repeated(&mut self, repeated: &str) -> io::Result<()> {
        let Some((times, text)) = repeated.split_once(' ') else {
            return Err(invalid());
        };
        let bytes = bytes_of(self.alloc, text)?;
        for _ in 0..number_of(times)? {
            self.input.extend_from_slice(&bytes)?;
        }
        Ok(())
    }

    fn add_line(&mut self, line: &str) -> io::Result<()> {
        self.input.extend_from_slice(line.as_bytes())?;
        self.input.push(b'\n')?;
        Ok(())
    }

    /// Does the command, if there is one: words, or a line of a batch.
    fn end_command<R: Print>(&mut self, rt: &R) -> io::Result<()> {
        let input = mem::replace(&mut self.input, Vec::new(self.alloc));
        match mem::replace(&mut self.words, None) {
            Some(words) => self.print_command(rt, &words, input),
            None if input.is_empty() => Ok(()),
            None => {
                let words = words_of(self.alloc, BATCH)?;
                self.print_command(rt, &words, input)
            }
        }
    }

    /// Runs a command over this input, and prints what it writes.
    fn print_command<R: Print>(
        &mut self,
        rt: &R,
        words: &[Text],
        input: Vec<u8>,
    ) -> io::Result<()> {
        let Ok(output) = self.run_command(words, input) else {
            return Err(io::Error::from(ErrorKind::OutOfMemory));
        };
        io::writer(rt).write_all(output.as_bytes())
    }

    /// Runs a command over this input, and gives what it writes.
    fn run_command(&mut self, words: &[Text], input: Vec<u8>) -> Result<MemorySink, Memory> {
        let mut input = MemorySource::new(input);
        let mut output = MemorySink::new(self.alloc);
        let mut clock = MemoryClock::new(vec![in self.alloc; self.moment]?);
        let mut links = self.links_for(words)?;
        self.gate = self.log.as_bytes().len().saturating_sub(1);
        let log = mem::replace(&mut self.log, MemoryDisk::new(self.alloc));
        let side = mem::replace(&mut self.side, MemoryDisk::new(self.alloc));
        let (_, log, side) = run(
            self.alloc,
            words,
            &mut input,
            &mut output,
            log,
            side,
            &mut clock,
            &mut links,
            &mut Unnoticed,
        );
        self.log = log;
        self.side = side;
        if let Some(link) = links.pop() {
            self.standby = link.into_standby();
        }
        Ok(output)
    }

    /// The links that a command has: `ship` has one to the standby, whose name it says.
    fn links_for(&mut self, words: &[Text]) -> Result<Vec<StandbyLink>, Memory> {
        let mut links = Vec::new(self.alloc);
        if let [verb, _, name, ..] = words {
            if verb.as_str() == "ship" {
                let mut names = Vec::new(self.alloc);
                if let Some(name) = Name::read(name.as_str()) {
                    names.push(name)?;
                }
                let standby = mem::replace(&mut self.standby, Standby::new(self.alloc));
                links.push(StandbyLink::new(Names::of(names), standby))?;
            }
        }
        Ok(links)
    }
}

/// A disk that holds these bytes.
fn disk_of(alloc: Global, bytes: &[u8]) -> io::Result<MemoryDisk> {
    match MemoryDisk::holding(alloc, bytes) {
        Ok(disk) => Ok(disk),
        Err(_) => Err(io::Error::from(ErrorKind::OutOfMemory)),
    }
}

/// The words of a line, with one space between them; none where it is empty. Between `'` the last word may have spaces.
fn words_of(alloc: Global, line: &str) -> io::Result<Vec<Text>> {
    let mut words = Vec::new(alloc);
    if line.is_empty() {
        return Ok(words);
    }
    let (plain, quoted) = match line.split_once(" '") {
        Some((plain, quoted)) => (plain, quoted.strip_suffix("'")),
        None => (line, None),
    };
    for word in plain.split(' ') {
        words.push(word_of(alloc, word)?)?;
    }
    if let Some(word) = quoted {
        words.push(word_of(alloc, word)?)?;
    }
    Ok(words)
}

fn word_of(alloc: Global, word: &str) -> io::Result<Text> {
    match Text::copy_of(alloc, word) {
        Ok(word) => Ok(word),
        Err(Memory) => Err(io::Error::from(ErrorKind::OutOfMemory)),
    }
}
