//! A table of lines and answers: prints what each line of the input is read as, then the answer to each denial, and then an
//! answer of each other kind.
//!
//! A line that is read is printed as the word of what it asks, behind its caller and number where it is a request. One that
//! is not is printed as `bad` and its first bad property.
//!
//! Four words before an object have it read as what comes by itself: `archive` as a question on the archive, `package` as a
//! package, `numbered` as one with its number, and `reach` as the targets that a publication would have.
#![tactic(auto)]

mod answers;
mod denials;
mod objects;
mod questions;
mod words;

use denials::denials;
use desk_answers::denial_text;
use desk_lines::{Asked, LineFault, read_archive_body, read_line, word_of_property};
use news_types::{Bytes, Holder, Memory, Name, Place, Query};
use objects::{print_numbered, print_package};
use questions::{print_desk, print_targets};
use std::io::{self, ErrorKind, Write};
use words::word_of_command;

fn main(rt: HostRuntime) -> io::Result<()> {
    for line in rt.lines(rt.alloc()) {
        print_line(&rt, line?.as_str())?;
    }
    print_answers(&rt)?;
    if let (Some(city), Some(ana), Some(s1)) = (
        Name::read("city"),
        Name::read("ana"),
        Name::read("s1"),
    ) {
        let holder = Holder {
            user: ana,
            session: s1,
        };
        print_denials(&rt, city, holder)?;
        print_rows(&rt, city, holder)?;
    }
    Ok(())
}

/// Prints what a line is read as.
fn print_line<R: Print + AllocGlobal>(rt: &R, line: &str) -> io::Result<()> {
    if let Some(object) = line.strip_prefix("archive ") {
        return print_read(rt, read_archive_body(rt.alloc(), object.as_bytes()));
    }
    if let Some(object) = line.strip_prefix("package ") {
        return print_package(rt, object);
    }
    if let Some(object) = line.strip_prefix("numbered ") {
        return print_numbered(rt, object);
    }
    if let Some(object) = line.strip_prefix("reach ") {
        return print_targets(rt, object);
    }
    print_read(rt, read_line(rt.alloc(), line.as_bytes()))
}

fn print_read(rt: &impl Print, read: Result<Asked, LineFault>) -> io::Result<()> {
    match read {
        Ok(asked) => {
            let printed = print_asked(rt, &asked);
            drop(asked);
            printed
        }
        Err(fault) => print_fault(rt, fault),
    }
}

/// Prints why a line is not read.
fn print_fault(rt: &impl Print, fault: LineFault) -> io::Result<()> {
    match fault {
        LineFault::Bad { property } => println!(rt; "bad {}", word_of_property(property)),
        LineFault::Memory => Err(io::Error::from(ErrorKind::OutOfMemory)),
    }
}

fn print_asked(rt: &impl Print, asked: &Asked) -> io::Result<()> {
    match asked {
        Asked::Request {
            caller,
            number,
            command,
        } => println!(rt; "{} {number} {}", caller.as_str(), word_of_command(command)),
        Asked::Query(query) => print_query(rt, query),
        Asked::Receipt { subscriber, n } => println!(rt; "receipt {} {n}", subscriber.as_str()),
        Asked::Archive { page, query } => println!(rt; "archive {page} [{}]", query.as_str()),
        Asked::Desk(question) => print_desk(rt, question),
    }
}

fn print_query(rt: &impl Print, query: &Query) -> io::Result<()> {
    match query {
        Query::Feed { subscriber, after } => println!(rt; "feed {} {after}", subscriber.as_str()),
        Query::Item { item } => println!(rt; "item {item}"),
        Query::Queue => println!(rt; "queue"),
        Query::Check => println!(rt; "check"),
        Query::Publication { number } => println!(rt; "publication {number}"),
        _ => println!(rt; "a question that no line asks"),
    }
}

fn print_denials<R: Print + AllocGlobal>(rt: &R, desk: Name, holder: Holder) -> io::Result<()> {
    for denial in &denials(desk, holder) {
        print_text(rt, denial_text(rt.alloc(), denial))?;
    }
    Ok(())
}

/// Prints the answers to what is done, faulty or asked, but for those below.
fn print_answers<R: Print + AllocGlobal>(rt: &R) -> io::Result<()> {
    print_text(rt, answers::reply(rt.alloc(), false))?;
    print_text(rt, answers::reply(rt.alloc(), true))?;
    print_text(rt, answers::short_reply(rt.alloc()))?;
    print_text(rt, answers::bad(rt.alloc()))?;
    print_text(rt, answers::wire_fault(rt.alloc()))?;
    print_text(rt, answers::item_fault(rt.alloc()))?;
    print_text(rt, answers::check(rt.alloc()))?;
    print_text(rt, answers::unknown(rt.alloc()))?;
    print_text(rt, answers::publication(rt.alloc()))?;
    print_text(rt, answers::no_publication(rt.alloc()))
}

/// Prints the answers that name something: a feed, the queue, an item.
fn print_rows<R: Print + AllocGlobal>(rt: &R, desk: Name, holder: Holder) -> io::Result<()> {
    let place = Place { desk, stage: desk };
    print_text(rt, answers::feed(rt.alloc(), holder.user))?;
    print_text(rt, answers::queue(rt.alloc(), holder.user))?;
    print_text(rt, answers::item(rt.alloc(), place, holder))
}

fn print_text(rt: &impl Print, text: Result<Bytes, Memory>) -> io::Result<()> {
    let Ok(text) = text else {
        return Err(io::Error::from(ErrorKind::OutOfMemory));
    };
    let mut output = io::writer(rt);
    output.write_all(text.as_slice())?;
    output.write_all(b"\n")
}
