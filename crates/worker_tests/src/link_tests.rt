//! Receivers in memory, with replies by hand, and one link over the loopback.
ghost use Rattle.std.specs.Prelude.{◌≡◌, ◌≤◌, IsTrue, IfOk, length};
ghost use Rattle.news_types.specs.Names.{is_in};

use feed_links::{MemoryLink, TcpLink};
use feed_receiver::Receiver;
use news_io::{Failed, Link, MemoryKeeper};
use news_types::{Name, Names, Text};
use std::alloc::Global;
use std::io::{Read, Write};
use std::net::TcpListener;
use std::process::Abort;
use std::test::Fail;

const FIRST: &[u8] = b"FRAME alpha 1 2\nhi";

fn named(name: &str) -> Result<Name, Fail> {
    Ok(Name::read(name).ok_or("no name")?)
}

/// A link to the receivers `alpha` and `beta`, which hold nothing, whose calls with these numbers fail.
fn link_to_two(alloc: Global, failing: &[u64]) -> Result<MemoryLink<MemoryKeeper>, Fail> {
    let mut names = Vec::new(alloc);
    let mut receivers = Vec::new(alloc);
    for name in ["alpha", "beta"] {
        let name = named(name)?;
        let Ok(receiver) = Receiver::open(alloc, MemoryKeeper::new(alloc), name, &[]) else {
            return Err(Fail::new("not opened"));
        };
        names.push(name)?;
        receivers.push(receiver)?;
    }
    let failing = failing.to_vec(alloc)?;
    Ok(MemoryLink::new(alloc, Names::of(names), receivers, failing))
}

/// Sends a frame, and reads this reply.
fn exchange<L: Link>(
    rt: &impl Abort,
    link: &mut L,
    to: &Name,
    frame: &[u8],
    reply: &[u8],
) -> Result<(), Failed>
    requires { IsTrue (is_in to.now (L.link.serves link.old)) }
    ensures { L.link.serves link.new ≡ L.link.serves link.old }
{
    link.send(to, frame)?;
    let mut into = [0; 128];
    let length = link.receipt(to, &mut into)?;
    assert_eq!(rt; &into[..length], reply);
    Ok(())
}

/// Frames 1, 1, 3 and 2, one for another and one cut short: each reply is the receiver's count, or nothing.
#[test]
fn receivers_reply_with_their_counts(rt: HostRuntime) -> Result<(), Fail> {
    let (alpha, beta) = (named("alpha")?, named("beta")?);
    let mut link = link_to_two(rt.alloc(), &[])?;
    assert!(rt; alpha.is_among(link.names()) && beta.is_among(link.names()));
    exchange(&rt, &mut link, &alpha, FIRST, b"RECEIPT alpha 1\n")?;
    exchange(&rt, &mut link, &alpha, FIRST, b"RECEIPT alpha 1\n")?;
    exchange(
        &rt,
        &mut link,
        &alpha,
        b"FRAME alpha 3 0\n",
        b"RECEIPT alpha 1\n",
    )?;
    exchange(&rt, &mut link, &beta, FIRST, b"RECEIPT beta 0\n")?;
    exchange(
        &rt,
        &mut link,
        &alpha,
        b"FRAME alpha 2 0\n",
        b"RECEIPT alpha 2\n",
    )?;
    exchange(&rt, &mut link, &alpha, b"FRAME alpha 3 1\n", b"")?;
    assert_eq!(rt; link.count(&alpha), Some(2));
    assert_eq!(rt; link.count(&beta), Some(0));
    assert_eq!(rt; link.count(&named("gamma")?), None);
    assert_eq!(rt; (link.sent().len(), link.said().len()), (6, 6));
    assert_eq!(rt; link.fault_count(), 0);
    Ok(())
}

/// Of six calls the first and the fourth fail: the frame is not sent, and the reply waits on.
#[test]
fn calls_fail_by_their_numbers(rt: HostRuntime) -> Result<(), Fail> {
    let (alpha, beta) = (named("alpha")?, named("beta")?);
    let mut link = link_to_two(rt.alloc(), &[1, 4])?;
    let mut into = [0; 128];
    assert!(rt; alpha.is_among(link.names()) && beta.is_among(link.names()));
    assert_eq!(rt; link.send(&alpha, FIRST), Err(Failed));
    assert_eq!(rt; (link.count(&alpha), link.fault_count()), (Some(0), 1));
    if link.send(&alpha, FIRST).is_err() {
        assert_eq!(rt; (link.count(&alpha), link.fault_count()), (Some(0), 2));
        return Err(Fail::new("no memory"));
    }
    assert_eq!(rt; link.receipt(&beta, &mut into), Ok(0));
    assert_eq!(rt; link.send(&alpha, FIRST), Err(Failed));
    exchange(&rt, &mut link, &alpha, FIRST, b"RECEIPT alpha 1\n")?;
    assert_eq!(rt; (link.sent().len(), link.said().len()), (2, 2));
    assert_eq!(rt; link.fault_count(), 2);
    Ok(())
}

/// A reply is read to its line feed or its end; then a reply without a line is an end of the connection.
#[test]
fn a_link_over_tcp_connects_sends_and_reads(rt: HostRuntime) -> Result<(), Fail> {
    let alloc = rt.alloc();
    let alpha = named("alpha")?;
    let listener = TcpListener::bind(&rt, "127.0.0.1:0")?;
    let address = format!(in alloc; "{}", listener.local_addr()?)?;
    let mut pairs = Vec::new(alloc);
    pairs.push((alpha, Text::copy_of(alloc, address.as_str())?))?;
    let mut link = TcpLink::new(alloc, rt, pairs)?;
    let mut into = [0; 128];
    assert!(rt; alpha.is_among(link.names()));
    assert_eq!(rt; link.receipt(&alpha, &mut into), Err(Failed));
    assert_eq!(rt; link.send(&alpha, FIRST), Ok(()));
    let (mut peer, _) = listener.accept()?;
    let mut came = [0; 18];
    peer.read_exact(&mut came)?;
    assert_eq!(rt; came.as_slice(), FIRST);
    peer.write_all(b"RECEIPT alpha 1\nRECEIPT alpha")?;
    drop(peer);
    assert_eq!(rt; link.receipt(&alpha, &mut into), Ok(16));
    assert_eq!(rt; &into[..16], b"RECEIPT alpha 1\n".as_slice());
    assert_eq!(rt; link.receipt(&alpha, &mut into), Ok(13));
    assert_eq!(rt; link.receipt(&alpha, &mut into), Err(Failed));
    assert_eq!(rt; link.send(&alpha, FIRST), Ok(()));
    let (again, _) = listener.accept()?;
    drop(again);
    drop(listener);
    assert_eq!(rt; link.fault_count(), 2);
    Ok(())
}

/// Either link may go to another thread.
fn may_cross<T: Send>(_: &T) {}

#[test]
fn links_may_cross_to_threads(rt: HostRuntime) -> Result<(), Fail> {
    may_cross(&link_to_two(rt.alloc(), &[])?);
    may_cross(&TcpLink::new(rt.alloc(), rt, Vec::new(rt.alloc()))?);
    Ok(())
}
