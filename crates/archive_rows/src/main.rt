//! A table of queries: prints what each line of the input finds among six publications, or the place from which on it is no
//! query. A line that begins with `#` is printed as it is.
#![tactic(auto)]

mod six;

use archive_query::{Ask, QueryFault, Subject, parse};
use news_types::{Memory, Story};
use six::{SIX, story_of};
use std::alloc::Global;
use std::fmt::Write;
use std::io::{self, ErrorKind};

fn main(rt: HostRuntime) -> io::Result<()> {
    let Ok(stories) = stories_of(rt.alloc()) else {
        return Err(io::Error::from(ErrorKind::OutOfMemory));
    };
    for line in rt.lines(rt.alloc()) {
        print_line(&rt, &stories, line?.as_str())?;
    }
    Ok(())
}

/// The stories of the six.
fn stories_of(alloc: Global) -> Result<Vec<Story>, Memory> {
    let mut stories = Vec::new(alloc);
    for row in &SIX {
        stories.push(story_of(alloc, row)?)?;
    }
    Ok(stories)
}

/// Prints what a line says.
fn print_line<R: Print + AllocGlobal>(rt: &R, stories: &[Story], line: &str) -> io::Result<()> {
    if line.starts_with('#') {
        return println!(rt; "{line}");
    }
    match parse(rt.alloc(), line) {
        Ok(ask) => print_hits(rt, stories, &ask),
        Err(QueryFault::TooLong { length }) => println!(rt; "too long: {length}"),
        Err(QueryFault::At { at }) => println!(rt; "bad at {at}"),
        Err(QueryFault::TooDeep { at }) => println!(rt; "too deep at {at}"),
        Err(QueryFault::Memory) => Err(io::Error::from(ErrorKind::OutOfMemory)),
    }
}

/// Prints the numbers of those that a query finds.
fn print_hits<R: Print + AllocGlobal>(rt: &R, stories: &[Story], ask: &Ask) -> io::Result<()> {
    let Ok(hits) = hits_text(rt.alloc(), stories, ask) else {
        return Err(io::Error::from(ErrorKind::OutOfMemory));
    };
    println!(rt; "finds{}", hits.as_str())
}

/// The numbers of those that a query finds, with a space before each.
fn hits_text(alloc: Global, stories: &[Story], ask: &Ask) -> Result<String, Memory> {
    let mut hits = String::new(alloc);
    for (row, story) in SIX.iter().zip(stories) {
        let mut subject = Subject::new(alloc, row.facts, story);
        if ask.holds(&mut subject)? {
            write!(hits, " {}", row.facts.number)?;
        }
    }
    Ok(hits)
}
