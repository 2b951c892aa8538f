//! The lines of the input.
ghost use Rattle.newsroom_rows.specs.Lists.{SomeList};

use crate::incoming::{take_item, take_wire};
use crate::session::Session;
use crate::told::{Told, out_of_memory, print_text, print_told};
use crate::words::{invalid, name_of, names_of};
use desk_answers::bad_text;
use desk_lines::{Asked, LineFault, read_line};
use news_types::Query;
use std::io;

/// Does what a line of the input says, and prints what it is answered. A line of no form is invalid input.
pub(crate) fn take_line<R: Print + AllocGlobal>(
    rt: &R,
    session: &mut Session,
    line: &str,
) -> io::Result<()>
    requires { SomeList session.old.machine }
    ensures { SomeList session.new.machine }
{
    if line.starts_with('{') {
        return take_batch_line(rt, session, line);
    }
    match line.split_once(' ') {
        Some(("#", _)) => println!(rt; "{line}"),
        Some(("=", "new")) => session.restart(),
        Some(("@", moment)) => set_clock(session, moment),
        Some(("item", rest)) => take_item(rt, session, rest),
        Some(("wire", rest)) => take_wire(rt, session, rest),
        Some(("claim", names)) => claim(rt, session, names),
        Some(("frame", rest)) => ask_frame(rt, session, rest),
        None => take_word(rt, session, line),
        _ => Err(invalid()),
    }
}

/// Does what a line of one word says.
fn take_word<R: Print + AllocGlobal>(rt: &R, session: &mut Session, word: &str) -> io::Result<()>
    requires { SomeList session.old.machine }
    ensures { SomeList session.new.machine }
{
    match word {
        "tick" => print_told(rt, &session.tick()),
        "halt" => print_told(rt, &session.halt()?),
        _ => Err(invalid()),
    }
}

/// Answers a line of a batch.
fn take_batch_line<R: Print + AllocGlobal>(
    rt: &R,
    session: &mut Session,
    line: &str,
) -> io::Result<()>
    requires { SomeList session.old.machine }
    ensures { SomeList session.new.machine }
{
    match read_line(rt.alloc(), line.as_bytes()) {
        Ok(asked) => {
            let told = answer(session, asked)?;
            print_told(rt, &told)
        }
        Err(LineFault::Bad { property }) => print_text(rt, bad_text(rt.alloc(), property)),
        Err(LineFault::Memory) => Err(out_of_memory()),
    }
}

/// Takes what a line of a batch asks for to the newsroom.
fn answer(session: &mut Session, asked: Asked) -> io::Result<Told>
    requires { SomeList session.old.machine }
    ensures { SomeList session.new.machine }
{
    match asked {
        Asked::Request {
            caller,
            number,
            command,
        } => session.request(caller, number, command),
        Asked::Query(query) => session.ask(&query),
        Asked::Receipt { subscriber, n } => session.receipt(subscriber, n),
        Asked::Archive { page: _, query } => {
            drop(query);
            Err(invalid())
        }
        Asked::Desk(question) => {
            drop(question);
            Err(invalid())
        }
    }
}

fn set_clock(session: &mut Session, moment: &str) -> io::Result<()>
    requires { SomeList session.old.machine }
    ensures { SomeList session.new.machine }
{
    let Ok(moment) = moment.parse() else {
        return Err(invalid());
    };
    session.set_clock(moment);
    Ok(())
}

/// Claims for the feeds of these names.
fn claim<R: Print + AllocGlobal>(rt: &R, session: &mut Session, words: &str) -> io::Result<()>
    requires { SomeList session.old.machine }
    ensures { SomeList session.new.machine }
{
    let names = names_of(rt.alloc(), words)?;
    let told = session.claim(&names)?;
    print_told(rt, &told)
}

/// Asks for the frame of an entry of a feed.
fn ask_frame<R: Print + AllocGlobal>(rt: &R, session: &Session, rest: &str) -> io::Result<()>
    requires { SomeList session.now.machine }
{
    let Some((subscriber, k)) = rest.split_once(' ') else {
        return Err(invalid());
    };
    let subscriber = name_of(subscriber)?;
    let Ok(k) = k.parse() else {
        return Err(invalid());
    };
    let told = session.ask(&Query::Frame { subscriber, k })?;
    print_told(rt, &told)
}
