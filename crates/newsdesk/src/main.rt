//! newsdesk: a newsroom server for one news agency. It makes the real objects, and hands them to the call that is proved.
#![tactic(auto)]

ghost use Rattle.std.specs.Prelude.{◌≡◌, ◌+◌, vec_len, IfOk};
ghost use Rattle.news_io.specs.Devices.{file_disk};
ghost use Rattle.news_pair.specs.Keeper.{pair_of};
ghost use Rattle.news_room.specs.Stands.{SomeBook};
ghost use Rattle.spoken_devices.specs.Meanings.{spoken_disk};

mod descriptors;
mod key;
mod notices;
mod reasons;
mod shipping;
mod store;
mod usage;

use crate::descriptors::hold_descriptors;
use crate::key::read_key;
use crate::notices::StoreNotices;
use crate::reasons::{Ending, tell_reason};
use crate::shipping::ship_each;
use crate::store::{Keeping, keeping_of, open_files};
use crate::usage::{has_addresses, tell_usage};
use command_words::{
    Options, Serving, command_help, help_texts, read_options, read_serving, read_words,
    version_text,
};
use feed_links::TcpLink;
use list_marks::notice_room;
use news_io::{FileDisk, Sink, StdClock, StdSink, StdSource, write_all};
use news_pair::Pair;
use news_types::{Memory, Name, Text};
use newsdesk_server::{Setup, open_store, run_serve};
use program_run::run;
use progress::{Content, Meter, Watched};
use run_status::{Status, tell_status};
use server_doors::TcpDoor;
use spoken_devices::{SpokenDisk, SpokenLink, StoreFile};
use std::alloc::Global;
use std::fs::File;
use std::io::{ErrorKind, IsTerminal};
use std::net::{Net, TcpListener, TcpStream};
use std::process::ExitCode;
use std::rt::{Env, Files};
use std::time::Clock;
use std::{env, io};

fn main(rt: HostRuntime) -> ExitCode {
    let alloc = rt.alloc();
    let Ok(held) = hold_descriptors(&rt, alloc) else {
        return ExitCode::from(Status::Usage.number());
    };
    let shows = rt.stderr().is_terminal();
    let mut words = match words_of(&rt) {
        Ok(words) => words,
        Err(NoWords::Faulty) => return ExitCode::from(Status::Usage.number()),
        Err(NoWords::Memory) => return ExitCode::from(Status::Memory.number()),
    };
    let Ok(mut output) = StdSink::new(alloc, io::writer(&rt)) else {
        return ExitCode::from(Status::Memory.number());
    };
    let taken = take_options(&mut words);
    let Some((options, key)) = taken.filter(|_| has_addresses(&words)) else {
        tell_usage(&rt, &words);
        return ExitCode::from(tell_status(&mut output, Status::Usage));
    };
    let ending = match read_serving(&words) {
        Some(serving) => match server_of(&rt, alloc, &words, options, key, serving) {
            Ok(setup) => Ending::untold(run_serve(&rt, alloc, setup, &mut output).status.number()),
            Err(NoServer { status, is_told }) => Ending {
                status: tell_status(&mut output, status),
                is_told,
            },
        },
        None => match (options.every, link_to(&rt, alloc, linked_by(&words))) {
            (_, Err(Memory)) => Ending::untold(tell_status(&mut output, Status::Memory)),
            (None, Ok(link)) => start(&rt, alloc, &words, options, &mut output, link, shows),
            (Some(seconds), Ok(link)) => Ending::untold(ship_each(
                &rt,
                alloc,
                &words,
                options,
                seconds,
                &mut output,
                link,
            )),
        },
    };
    tell_reason(&rt, &words, ending);
    drop(held);
    ExitCode::from(ending.status)
}

/// Takes the options out of the words, and gives them with the FILE of `--key`; nothing where they are none.
fn take_options(words: &mut Vec<Text>) -> Option<(Options, Option<Text>)> {
    let options = match words.is_empty() {
        true => Options::none(),
        false => read_options(words)?,
    };
    let key = match options.key {
        Some(place) if place < words.len() => Some(words.remove(place)),
        Some(_) => return None,
        None => None,
    };
    for _ in key.is_some() as usize..options.count() {
        if words.len() > 1 {
            drop(words.remove(1));
        }
    }
    Some((options, key))
}

/// Why there is no command to do.
enum NoWords {
    /// A word is not UTF-8.
    Faulty,
    /// There was no memory.
    Memory,
}

/// The words behind the program's own name.
fn words_of<R: Env + AllocGlobal>(rt: &R) -> Result<Vec<Text>, NoWords> {
    let mut words = Vec::new(rt.alloc());
    let args = match env::args(rt) {
        Ok(args) => args,
        Err(error) if error.kind() == ErrorKind::OutOfMemory => return Err(NoWords::Memory),
        Err(_) => return Err(NoWords::Faulty),
    };
    for word in args.skip(1) {
        let Ok(text) = Text::copy_of(rt.alloc(), word.as_str()) else {
            return Err(NoWords::Memory);
        };
        if words.push(text).is_err() {
            return Err(NoWords::Memory);
        }
    }
    Ok(words)
}

/// Does what the words ask for once, but for `serve`, over a link to the receivers that they name.
fn start<
    R: Files<File = File>
        + Net<Stream = TcpStream>
        + Clock
        + Input
        + Eprint
        + AllocGlobal
        + Clone
        + Drop,
    O: Sink,
>(
    rt: &R,
    alloc: Global,
    words: &[Text],
    options: Options,
    output: &mut O,
    link: SpokenLink<R>,
    shows: bool,
) -> Ending {
    if let Some(status) = tell_program(words, output) {
        return Ending::untold(status);
    }
    let Some(job) = read_words(words) else {
        return Ending::untold(tell_status(output, Status::Usage));
    };
    let keeping = keeping_of(job);
    if options.key.is_some() || !keeping.allows(options) {
        return Ending::untold(tell_status(output, Status::Usage));
    }
    match open_files(rt, alloc, words, keeping, options) {
        Ok((log, side)) => match run_words(rt, alloc, words, output, log, side, link, shows) {
            Ok(ending) => ending,
            Err(Memory) => Ending::untold(tell_status(output, Status::Memory)),
        },
        Err(status) => Ending::untold(tell_status(output, status)),
    }
}

/// Writes what the program is, where the words ask for that, and gives the status.
fn tell_program<O: Sink>(words: &[Text], output: &mut O) -> Option<u8> {
    match words {
        [word] => match word.as_str() {
            "--help" => Some(say(output, &help_texts())),
            "--version" => Some(say(output, &[version_text()])),
            _ => None,
        },
        [command, word] if word.as_str() == "--help" => {
            let line = command_help(command.as_str())?;
            Some(say(output, &[line]))
        }
        _ => None,
    }
}

/// Writes texts to the output, one behind the other.
fn say<O: Sink>(output: &mut O, texts: &[&str]) -> u8 {
    for text in texts {
        if write_all(output, text.as_bytes()).is_err() {
            return Status::Output.number();
        }
    }
    if output.flush().is_err() {
        return Status::Output.number();
    }
    Status::Done.number()
}

/// A meter of what is read or done, where it is to be shown.
fn meter<R: Clock + Eprint + Clone>(
    rt: &R,
    shows: bool,
    content: Content,
) -> Result<Option<Meter<R>>, Memory> {
    if !shows {
        return Ok(None);
    }
    Ok(Some(Meter::new(rt.clone()?, content)))
}

/// Makes the other real objects, and runs the command over the two files. Where `shows` is set, standard error shows how far the log and the input are read,
/// and of a drill, which reads neither, how many steps it has taken.
fn run_words<
    R: Files<File = File>
        + Net<Stream = TcpStream>
        + Clock
        + Input
        + Eprint
        + AllocGlobal
        + Clone
        + Drop,
    O: Sink,
>(
    rt: &R,
    alloc: Global,
    words: &[Text],
    output: &mut O,
    log: FileDisk<R>,
    side: FileDisk<R>,
    link: SpokenLink<R>,
    shows: bool,
) -> Result<Ending, Memory> {
    let mut input = Watched::new(
        StdSource::new(alloc, rt.reader())?,
        meter(rt, shows, Content::Lines)?,
    );
    let drills = words.first().is_some_and(|verb| verb.as_str() == "drill");
    let mut clock = Watched::new(
        StdClock::new(rt.clone()?),
        meter(rt, shows && drills, Content::Steps)?,
    );
    let log = Watched::new(log, meter(rt, shows, Content::Binary)?);
    let side = Watched::new(side, None);
    let mut links = Vec::new(alloc);
    links.push(link)?;
    let mut notices = StoreNotices::of(rt, words);
    let (status, log, _) = run(
        alloc,
        words,
        &mut input,
        output,
        log,
        side,
        &mut clock,
        &mut links,
        &mut notices,
    );
    if log.has_shown() || input.has_shown() || clock.has_shown() {
        let _ = eprintln!(rt);
    }
    let is_told = log.inner.has_refused_write();
    if is_told {
        let _ = eprintln!(rt;
            "newsdesk: the last packing was cut short: `newsdesk pack STORE` puts the log right"
        );
    }
    Ok(Ending { status, is_told })
}

/// A file of the store of a server, whose failures are told.
type Spoken<R> = SpokenDisk<FileDisk<R>, R>;

/// What a server over real files and connections starts with.
type Newsdesk<R> = Setup<Pair<Spoken<R>>, StdClock<R>, TcpDoor<R>, SpokenLink<R>>;

/// Why there is no server.
#[derive(Clone, Copy)]
struct NoServer {
    status: Status,
    /// Whether standard error has said why.
    is_told: bool,
}

impl NoServer {
    /// With this status, of which nothing was said.
    fn untold(status: Status) -> NoServer {
        NoServer {
            status,
            is_told: false,
        }
    }
}

/// The key in this file. Where there is none, standard error has said why.
fn key_of<R: Files<File = File> + Clock + Eprint>(
    rt: &R,
    alloc: Global,
    file: &Text,
) -> Result<Text, NoServer> {
    match read_key(rt, alloc, file.as_str()) {
        Ok(key) => Ok(key),
        Err(status) => Err(NoServer {
            status,
            is_told: status != Status::Memory,
        }),
    }
}

/// The room of the store that the words name, with what its server needs beside it; or the status that says why there is none.
fn server_of<
    R: Files<File = File>
        + Net<Listener = TcpListener, Stream = TcpStream>
        + Clock
        + Eprint
        + Clone
        + Drop,
>(
    rt: &R,
    alloc: Global,
    words: &[Text],
    options: Options,
    key: Option<Text>,
    serving: Serving<'_>,
) -> Result<Newsdesk<R>, NoServer>
    ensures stands { IfOk result (λ setup. SomeBook (pair_of (spoken_disk file_disk)) setup.room) }
    ensures clocks { IfOk result (λ setup. vec_len setup.clocks ≡ vec_len setup.links + 1) }
{
    if options.every.is_some() || !Keeping::Writes.allows(options) {
        return Err(NoServer::untold(Status::Usage));
    }
    let key = match key {
        Some(file) => Some(key_of(rt, alloc, &file)?),
        None => None,
    };
    let (log, side) = match open_files(rt, alloc, words, Keeping::Writes, options) {
        Ok(files) => files,
        Err(status) => return Err(NoServer::untold(status)),
    };
    let (Ok(log), Ok(side)) = (
        spoken(rt, log, StoreFile::Log),
        spoken(rt, side, StoreFile::Side),
    ) else {
        return Err(NoServer::untold(Status::Memory));
    };
    let room = match open_store(alloc, log, side) {
        Ok(room) => room,
        Err((status, _, _)) => return Err(NoServer::untold(status)),
    };
    notice_room(alloc, &room, &mut StoreNotices::of(rt, words));
    let Ok((door, clocks, links)) = outside_of(rt, alloc, key, serving) else {
        return Err(NoServer::untold(Status::Memory));
    };
    Ok(Setup {
        room,
        door,
        clocks,
        links,
    })
}

/// A file of the store, whose failures are told.
fn spoken<R: Clock + Eprint + Clone>(
    rt: &R,
    disk: FileDisk<R>,
    file: StoreFile,
) -> Result<Spoken<R>, Memory> {
    Ok(SpokenDisk::new(disk, rt.clone()?, file))
}

/// A door at the address, which asks for the key if there is one, a clock for each role, and a link over all receivers for each worker.
fn outside_of<R: Net<Listener = TcpListener, Stream = TcpStream> + Clock + Eprint + Clone + Drop>(
    rt: &R,
    alloc: Global,
    key: Option<Text>,
    serving: Serving<'_>,
) -> Result<(TcpDoor<R>, Vec<StdClock<R>>, Vec<SpokenLink<R>>), Memory>
    ensures { IfOk result (λ made. vec_len made.1 ≡ vec_len made.2 + 1) }
{
    let address = Text::copy_of(alloc, serving.address.as_str())?;
    let door = TcpDoor::new(alloc, rt.clone()?, address).with_key(key);
    let mut clocks = Vec::new(alloc);
    clocks.push(StdClock::new(rt.clone()?))?;
    let mut links = Vec::new(alloc);
    for _ in 0..serving.workers {
        clocks.push(StdClock::new(rt.clone()?))?;
        links.push(link_to(rt, alloc, serving.receivers)?)?;
    }
    Ok((door, clocks, links))
}

/// A link to receivers, each a name and behind it its address, whose failures are told.
fn link_to<R: Net<Stream = TcpStream> + Clock + Eprint + Clone + Drop>(
    rt: &R,
    alloc: Global,
    pairs: &[Text],
) -> Result<SpokenLink<R>, Memory> {
    let link = TcpLink::new(alloc, rt.clone()?, receivers_in(alloc, pairs)?)?;
    SpokenLink::new(alloc, link, rt.clone()?)
}

/// The receivers that a `drain` names, each with its address, or the standby that a `ship` names; none of another command.
fn linked_by(words: &[Text]) -> &[Text] {
    match words {
        [verb, _, pairs @ ..] if verb.as_str() == "drain" || verb.as_str() == "ship" => pairs,
        _ => &[],
    }
}

/// The receivers of these pairs, each with its address; none behind a word that is no name.
fn receivers_in(alloc: Global, pairs: &[Text]) -> Result<Vec<(Name, Text)>, Memory> {
    let mut receivers = Vec::new(alloc);
    for pair in pairs.chunks_exact(2) {
        let [name, address] = pair else {
            return Ok(receivers);
        };
        let Some(name) = Name::read(name.as_str()) else {
            return Ok(receivers);
        };
        receivers.push((name, Text::copy_of(alloc, address.as_str())?))?;
    }
    Ok(receivers)
}
