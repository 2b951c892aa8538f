//! A link over TCP.
ghost use Rattle.std.specs.Prelude.{◌≡◌, ◌≤◌, ℕ, length, take, map, IfOk};
ghost use Rattle.news_types.specs.Names.{Bytes as NameBytes};
ghost use Rattle.news_io.specs.Link.{IsReply};

use crate::place::place_of;
use news_io::{Failed, Faults, Link};
use news_types::{Memory, Name, Names, Text};
use std::alloc::Global;
use std::io::{self, BufReader, ErrorKind, Read, Write};
use std::net::{Net, TcpStream, ToSocketAddrs};
use std::time::Duration;

/// How long one read or write over a connection may wait, in seconds.
const PATIENCE: u64 = 30;

/// How long the connecting to one address may take, in seconds.
const CONNECTING: u64 = 10;

/// How many bytes of replies are read at a time.
const AHEAD: usize = 256;

/// A link to receivers over TCP, by their addresses. A connection is made at the first send to a subscriber and kept.
/// One whose call failed, or whose reply ended without a line feed, is closed, and the next send makes another; so does a
/// send that finds that its receiver has closed the kept one. A receiver that takes or gives no byte for 30 seconds fails the
/// call, and connecting has 10 seconds for each address that a name stands for.
/// It tells nothing of its frames and replies.
#[derive(Drop)]
pub struct TcpLink<R> {
    alloc: Global,
    rt: R,
    names: Names,
    peers: Vec<Peer>,
    /// How long one read or write over a connection may wait.
    patience: Duration,
    faults: Faults,
}

/// A receiver's address, and the connection to it while there is one.
#[derive(Drop)]
struct Peer {
    address: Text,
    stream: Option<BufReader<TcpStream>>,
}

/// Connects to the first address of a name that can be reached.
fn reach<R: Net<Stream = TcpStream>>(rt: &R, address: &str) -> io::Result<TcpStream> {
    let mut last = io::Error::from(ErrorKind::InvalidInput);
    for place in address.to_socket_addrs(rt)? {
        match TcpStream::connect_timeout(rt, &place, Duration::from_secs(CONNECTING)) {
            Ok(stream) => return Ok(stream),
            Err(error) => last = error,
        }
    }
    Err(last)
}

/// Connects to an address. A read or a write that waits too long fails.
fn connect<R: Net<Stream = TcpStream>>(
    rt: &R,
    alloc: Global,
    address: &str,
    patience: Duration,
) -> io::Result<BufReader<TcpStream>> {
    let stream = reach(rt, address)?;
    stream.set_read_timeout(Some(patience))?;
    stream.set_write_timeout(Some(patience))?;
    stream.set_nodelay(true)?;
    match BufReader::with_capacity(alloc, AHEAD, stream) {
        Ok(reader) => Ok(reader),
        Err(_) => Err(io::Error::from(ErrorKind::OutOfMemory)),
    }
}

/// What stands ahead of a connection that was read to the end of a reply: it does not wait for a byte.
fn look_ahead(stream: &TcpStream) -> io::Result<usize> {
    stream.set_nonblocking(true)?;
    let looked = stream.peek(&mut [0]);
    stream.set_nonblocking(false)?;
    looked
}

/// Whether a kept connection can take a frame: its receiver has not closed it, and no byte came that nobody asked for.
fn is_idle(stream: &BufReader<TcpStream>) -> bool {
    if !stream.buffer().is_empty() {
        return false;
    }
    match look_ahead(stream.get_ref()) {
        Ok(_) => false,
        Err(error) => error.kind() == ErrorKind::WouldBlock,
    }
}

/// The next byte, or nothing at the end. A read that a signal cut short is made again.
fn next_byte<S: Read>(stream: &mut S) -> io::Result<Option<u8>> {
    let mut byte = [0];
    for _ in 0..u64::MAX {
        match stream.read(&mut byte) {
            Ok(0) => return Ok(None),
            Ok(_) => return Ok(Some(byte[0])),
            Err(error) if error.kind() == ErrorKind::Interrupted => {}
            Err(error) => return Err(error),
        }
    }
    Err(io::Error::from(ErrorKind::Interrupted))
}

/// Reads a reply, byte by byte, so that nothing behind its line feed is taken from the reader.
fn read_line<S: Read>(stream: &mut S, into: &mut [u8; 128]) -> io::Result<usize>
    ensures within { IfOk result (λ n. n ≤ 128) }
    ensures reply { IfOk result (λ n. IsReply (take n into.new)) }
{
    for length in 0..128 {
        let Some(byte) = next_byte(stream)? else {
            return Ok(length);
        };
        into[length] = byte;
        if byte == b'\n' {
            return Ok(length + 1);
        }
    }
    Ok(128)
}

impl Peer {
    /// Writes a frame, over a new connection where there is none or the kept one is of no use. A connection whose write failed
    /// is closed.
    fn send<R: Net<Stream = TcpStream>>(
        &mut self,
        rt: &R,
        alloc: Global,
        patience: Duration,
        frame: &[u8],
    ) -> io::Result<()> {
        let mut stream = match self.stream.take() {
            Some(stream) if is_idle(&stream) => stream,
            _ => connect(rt, alloc, self.address.as_str(), patience)?,
        };
        stream.get_mut().write_all(frame)?;
        self.stream = Some(stream);
        Ok(())
    }

    /// Reads a reply. The connection stays only behind a whole line.
    fn receive(&mut self, into: &mut [u8; 128]) -> io::Result<usize>
        ensures within { IfOk result (λ n. n ≤ 128) }
        ensures reply { IfOk result (λ n. IsReply (take n into.new)) }
    {
        let Some(mut stream) = self.stream.take() else {
            return Err(io::Error::from(ErrorKind::NotConnected));
        };
        let length = read_line(&mut stream, into)?;
        if length > 0 && into[length - 1] == b'\n' {
            self.stream = Some(stream);
        }
        Ok(length)
    }
}

/// The peer of a subscriber.
fn peer_of<'a>(
    names: &[Name],
    peers: &'a mut Vec<Peer>,
    subscriber: &Name,
) -> Option<&'a mut Peer> {
    peers.get_mut(place_of(names, subscriber)?)
}

impl<R: Net<Stream = TcpStream> + Drop> TcpLink<R> {
    ghost use Rattle.feed_links.specs.Links.{tcp_link};

    /// A link to the receivers of these subscribers, each with its address: a host and a port, as `127.0.0.1:7901`.
    pub fn new(alloc: Global, rt: R, pairs: Vec<(Name, Text)>) -> Result<TcpLink<R>, Memory>
        ensures serves { IfOk result (λ l. tcp_link.serves l ≡ map (λ (p : NameBytes × NameBytes). p.0) pairs.items) }
        ensures faults { IfOk result (λ l. tcp_link.faults l ≡ 0) }
    {
        let mut names = Vec::with_capacity(alloc, pairs.len())?;
        let mut peers = Vec::with_capacity(alloc, pairs.len())?;
        for (name, address) in pairs {
            names.push(name)?;
            peers.push(Peer {
                address,
                stream: None,
            })?;
        }
        Ok(TcpLink {
            alloc,
            rt,
            names: Names::of(names),
            peers,
            patience: Duration::from_secs(PATIENCE),
            faults: Faults::none(),
        })
    }

    /// The same link, a read or write of which may wait so long.
    pub fn with_patience(mut self, patience: Duration) -> TcpLink<R>
        ensures serves { tcp_link.serves result ≡ tcp_link.serves self }
        ensures faults { tcp_link.faults result ≡ tcp_link.faults self }
    {
        self.patience = patience;
        self
    }

    /// How many of its calls failed.
    pub fn fault_count(&self) -> u64
        ensures { result ≡ tcp_link.faults self.now }
    {
        self.faults.count()
    }
}

impl<R> TcpLink<R> {
    /// Why the last call that failed did.
    pub fn last_error(&self) -> Option<io::Error> {
        self.faults.last_error()
    }
}

impl<R: Net<Stream = TcpStream>> Link for TcpLink<R> {
    ghost use Rattle.feed_links.specs.Links.{tcp_link};

    ghost link = { tcp_link };

    fn names(&self) -> &[Name] {
        self.names.as_slice()
    }

    fn send(&mut self, subscriber: &Name, frame: &[u8]) -> Result<(), Failed> {
        let sent = match peer_of(self.names.as_slice(), &mut self.peers, subscriber) {
            Some(peer) => peer.send(&self.rt, self.alloc, self.patience, frame),
            None => Err(io::Error::from(ErrorKind::NotFound)),
        };
        self.faults.counted(sent)
    }

    fn receipt(&mut self, subscriber: &Name, into: &mut [u8; 128]) -> Result<usize, Failed> {
        let read = match peer_of(self.names.as_slice(), &mut self.peers, subscriber) {
            Some(peer) => peer.receive(into),
            None => Err(io::Error::from(ErrorKind::NotFound)),
        };
        self.faults.counted(read)
    }
}
