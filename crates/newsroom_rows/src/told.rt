//! What a call of the newsroom is told, and how it is printed.

use desk_answers::{answer_text, denial_text, reply_text};
use news_types::{Answer, Bytes, Denial, Memory, Moment, Name, Reply};
use std::io::{self, ErrorKind, Write};

/// What a call is told.
#[derive(Drop)]
pub(crate) enum Told {
    /// It is done.
    Done(Reply),
    /// It was done before.
    Repeat(Reply),
    Denied(Denial),
    /// The place of the entry that is kept.
    Kept(u64),
    /// Nothing waits.
    Still,
    /// The next entry of a feed is to be sent.
    Job {
        subscriber: Name,
        k: u32,
        frame: Bytes,
    },
    /// None of the feeds is ready; the next moment at which one may be.
    Idle(Option<Moment>),
    Answer(Answer),
}

/// Prints what a call is told.
pub(crate) fn print_told<R: Print + AllocGlobal>(rt: &R, told: &Told) -> io::Result<()> {
    match told {
        Told::Done(reply) => print_text(rt, reply_text(rt.alloc(), reply, false)),
        Told::Repeat(reply) => print_text(rt, reply_text(rt.alloc(), reply, true)),
        Told::Denied(denial) => print_text(rt, denial_text(rt.alloc(), denial)),
        Told::Kept(entry) => println!(rt; "kept {entry}"),
        Told::Still => println!(rt; "still"),
        Told::Job {
            subscriber,
            k,
            frame,
        } => println!(rt;
            "job {} {k} {}",
            subscriber.as_str(),
            frame.as_slice().len()
        ),
        Told::Idle(Some(next)) => println!(rt; "idle {next}"),
        Told::Idle(None) => println!(rt; "idle"),
        Told::Answer(answer) => print_answer(rt, answer),
    }
}

/// Prints the answer to a question.
fn print_answer<R: Print + AllocGlobal>(rt: &R, answer: &Answer) -> io::Result<()> {
    match answer {
        Answer::Feed { .. }
        | Answer::Item(_)
        | Answer::Queue(_)
        | Answer::Check { .. }
        | Answer::Publication(_)
        | Answer::NoPublication { .. }
        | Answer::Unknown { .. } => print_text(rt, answer_text(rt.alloc(), answer)),
        Answer::Frame(bytes) => print_bytes(rt, bytes),
        Answer::NoFrame { length } => println!(rt; "none of {length}"),
        _ => println!(rt; "an answer to what no line asks"),
    }
}

/// Prints a text that was written, if there was memory for it.
pub(crate) fn print_text(rt: &impl Print, text: Result<Bytes, Memory>) -> io::Result<()> {
    match text {
        Ok(bytes) => print_bytes(rt, &bytes),
        Err(Memory) => Err(out_of_memory()),
    }
}

fn print_bytes(rt: &impl Print, bytes: &Bytes) -> io::Result<()> {
    let mut output = io::writer(rt);
    output.write_all(bytes.as_slice())?;
    output.write_all(b"\n")
}

pub(crate) fn out_of_memory() -> io::Error {
    io::Error::from(ErrorKind::OutOfMemory)
}
