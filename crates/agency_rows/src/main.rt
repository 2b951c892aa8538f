//! A table of what agencies send: prints what each line of the input says, member by member. A line that begins with `^` is a wire, with its
//! controls as `^A` and any byte as `^x93`; one that begins with `#` is printed as it is; each other one is items as JSON.
#![tactic(auto)]

mod escapes;

use agency_items::{ItemFault, Property, read_items};
use agency_wires::{Found, WireFault, read_all, read_message};
use escapes::bytes_of;
use news_types::{Incoming, Memory, Moment, Story};
use std::alloc::Global;
use std::io::{self, ErrorKind};

/// The moment at which the wires are read: 2026-12-01.
const READING: Moment = 1_796_083_200;

fn main(rt: HostRuntime) -> io::Result<()> {
    for line in rt.lines(rt.alloc()) {
        print_line(&rt, line?.as_str())?;
    }
    Ok(())
}

/// Prints what a line says.
fn print_line<R: Print + AllocGlobal>(rt: &R, line: &str) -> io::Result<()> {
    if line.starts_with('#') {
        return println!(rt; "{line}");
    }
    if line.starts_with('^') {
        return print_wire(rt, line);
    }
    match read_items(rt.alloc(), line.as_bytes()) {
        Ok(members) => print_members(rt, &members),
        Err(_) => Err(io::Error::from(ErrorKind::OutOfMemory)),
    }
}

/// Prints each member.
fn print_members<R: Print>(rt: &R, members: &[Result<Incoming, ItemFault>]) -> io::Result<()> {
    for member in members {
        print_member(rt, member)?;
    }
    Ok(())
}

/// Prints what came in, or the fault.
fn print_member<R: Print>(rt: &R, member: &Result<Incoming, ItemFault>) -> io::Result<()> {
    match member {
        Ok(incoming) => print_incoming(rt, incoming),
        Err(fault) => print_fault(rt, fault),
    }
}

/// Prints what came in.
fn print_incoming<R: Print>(rt: &R, incoming: &Incoming) -> io::Result<()> {
    println!(rt;
        "{:?} {:?} created {} embargo {}",
        incoming.identity.as_str(),
        incoming.status,
        incoming.created,
        incoming.embargo
    )?;
    print_story(rt, &incoming.story)
}

/// Prints a story.
fn print_story<R: Print>(rt: &R, story: &Story) -> io::Result<()> {
    println!(rt;
        "  {:?} {} {:?} slugline {:?} byline {:?} language {:?} category {:?}",
        story.kind,
        story.urgency,
        story.headline.as_str(),
        story.slugline.as_str(),
        story.byline.as_str(),
        story.language.as_str(),
        story.category.as_str()
    )?;
    println!(rt;
        "  html {} {:?} copyright {:?}",
        story.html,
        story.body.as_str(),
        story.copyright.as_str()
    )
}

/// Prints a fault.
fn print_fault<R: Print>(rt: &R, fault: &ItemFault) -> io::Result<()> {
    match fault {
        ItemFault::NotJson => println!(rt; "not JSON"),
        ItemFault::NotObject => println!(rt; "not an object"),
        ItemFault::NoUri => println!(rt; "no identity"),
        ItemFault::WrongKind => println!(rt; "wrong kind"),
        ItemFault::WrongType { property } => print_property(rt, "wrong", *property),
        ItemFault::TooLong { property } => print_property(rt, "too long", *property),
    }
}

/// Prints what is said of a property.
fn print_property<R: Print>(rt: &R, what: &str, property: Property) -> io::Result<()> {
    println!(rt; "{what}: {}", property.name())
}

/// Prints the messages of a wire.
fn print_wire<R: Print + AllocGlobal>(rt: &R, line: &str) -> io::Result<()> {
    let Ok(wire) = wire_of(rt.alloc(), line) else {
        return Err(io::Error::from(ErrorKind::OutOfMemory));
    };
    for found in &wire {
        print_found(rt, found)?;
    }
    Ok(())
}

/// The messages of a wire.
fn wire_of(alloc: Global, line: &str) -> Result<Vec<Found>, Memory> {
    let mut pieces = Vec::new(alloc);
    pieces.push(bytes_of(alloc, line)?)?;
    read_all(alloc, &pieces)
}

/// Prints where a message stands, and what it says.
fn print_found<R: Print + AllocGlobal>(rt: &R, found: &Found) -> io::Result<()> {
    match found {
        Found::Message { at, bytes } => {
            println!(rt; "at {at}, {} bytes", bytes.as_slice().len())?;
            print_message(rt, bytes.as_slice())
        }
        Found::TooLong { at } => println!(rt; "too long at {at}"),
    }
}

/// Prints what a message says.
fn print_message<R: Print + AllocGlobal>(rt: &R, bytes: &[u8]) -> io::Result<()> {
    match read_message(rt.alloc(), bytes, READING) {
        Ok(incoming) => print_incoming(rt, &incoming),
        Err(WireFault::Fault { at, what }) => println!(rt; "{what:?} at {at}"),
        Err(WireFault::Memory) => Err(io::Error::from(ErrorKind::OutOfMemory)),
    }
}
