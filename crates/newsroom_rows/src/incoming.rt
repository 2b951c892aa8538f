//! What comes in from providers: ninjs items, and the stories of a wire.
ghost use Rattle.newsroom_rows.specs.Lists.{SomeList};

use crate::session::Session;
use crate::told::{out_of_memory, print_text, print_told};
use crate::words::{invalid, name_of};
use desk_answers::fault_text;
use news_types::Name;
use ninjs_text::NinjsFault;
use std::alloc::Global;
use std::io;
use text7901::{Found, Reader, What};

/// Takes a ninjs item of a provider.
pub(crate) fn take_item<R: Print + AllocGlobal>(
    rt: &R,
    session: &mut Session,
    rest: &str,
) -> io::Result<()>
    requires { SomeList session.old.machine }
    ensures { SomeList session.new.machine }
{
    let Some((provider, item)) = rest.split_once(' ') else {
        return Err(invalid());
    };
    let provider = name_of(provider)?;
    match ninjs_text::read(rt.alloc(), item.as_bytes()) {
        Ok(incoming) => {
            let told = session.ingest(provider, incoming)?;
            print_told(rt, &told)
        }
        Err(fault) => print_fault(rt, fault),
    }
}

/// Prints why an item is not read.
fn print_fault<R: Print + AllocGlobal>(rt: &R, fault: NinjsFault) -> io::Result<()> {
    let (what, property) = match fault {
        NinjsFault::NotJson => ("NotJson", None),
        NinjsFault::NotObject => ("NotObject", None),
        NinjsFault::NoUri => ("NoUri", None),
        NinjsFault::WrongType { property } => ("WrongType", Some(property.name())),
        NinjsFault::TooLong { property } => ("TooLong", Some(property.name())),
        NinjsFault::Memory => return Err(out_of_memory()),
    };
    print_text(rt, fault_text(rt.alloc(), None, what, property))
}

/// Takes what a whole wire gives, of a provider.
pub(crate) fn take_wire<R: Print + AllocGlobal>(
    rt: &R,
    session: &mut Session,
    rest: &str,
) -> io::Result<()>
    requires { SomeList session.old.machine }
    ensures { SomeList session.new.machine }
{
    let Some((provider, text)) = rest.split_once(' ') else {
        return Err(invalid());
    };
    let provider = name_of(provider)?;
    let mut reader = whole_wire(rt.alloc(), text)?;
    while let Some(found) = reader.next() {
        take_found(rt, session, provider, found)?;
    }
    Ok(())
}

/// A reader that has read a whole wire.
fn whole_wire(alloc: Global, text: &str) -> io::Result<Reader> {
    let bytes = wire_bytes(alloc, text)?;
    let Ok(mut reader) = Reader::new(alloc) else {
        return Err(out_of_memory());
    };
    if reader.feed(&bytes).is_err() || reader.finish().is_err() {
        return Err(out_of_memory());
    }
    Ok(reader)
}

/// The bytes of a wire: `^` and a letter stand for a control byte, as `^A` for SOH and `^J` for LF.
fn wire_bytes(alloc: Global, text: &str) -> io::Result<Vec<u8>> {
    let mut bytes = Vec::new(alloc);
    let mut is_control = false;
    for byte in text.bytes() {
        if is_control {
            bytes.push(byte & 31)?;
            is_control = false;
        } else if byte == b'^' {
            is_control = true;
        } else {
            bytes.push(byte)?;
        }
    }
    Ok(bytes)
}

/// Takes a story of a wire, or prints what is wrong with it.
fn take_found<R: Print + AllocGlobal>(
    rt: &R,
    session: &mut Session,
    provider: Name,
    found: Found,
) -> io::Result<()>
    requires { SomeList session.old.machine }
    ensures { SomeList session.new.machine }
{
    match found {
        Found::Story(incoming) => {
            let told = session.ingest(provider, incoming)?;
            print_told(rt, &told)
        }
        Found::Fault { at, what } => {
            print_text(
                rt,
                fault_text(rt.alloc(), Some(at), word_of_fault(what), None),
            )
        }
    }
}

fn word_of_fault(what: What) -> &'static str {
    match what {
        What::NoHeader => "NoHeader",
        What::NoText => "NoText",
        What::NoEnd => "NoEnd",
        What::TooLong => "TooLong",
    }
}
