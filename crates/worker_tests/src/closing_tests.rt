//! What becomes of the connections of a link over TCP, over the loopback.
use feed_links::TcpLink;
use news_io::{Failed, Link};
use news_types::{Name, Text};
use std::alloc::Global;
use std::io::{Read, Write};
use std::net::{Net, TcpListener, TcpStream};
use std::test::Fail;
use std::time::Duration;

const FRAME: &[u8] = b"FRAME alpha 1 2\nhi";

fn named(name: &str) -> Result<Name, Fail> {
    Ok(Name::read(name).ok_or("no name")?)
}

/// A listener whose `accept` doesn't wait.
fn listen<R: Net<Listener = TcpListener, Stream = TcpStream>>(rt: &R) -> Result<TcpListener, Fail> {
    let listener = TcpListener::bind(rt, "127.0.0.1:0")?;
    listener.set_nonblocking(true)?;
    Ok(listener)
}

/// A link that has these listeners for the receivers `alpha` and `beta`.
fn link_to<R: Net<Stream = TcpStream> + Drop>(
    rt: R,
    alloc: Global,
    listeners: [&TcpListener; 2],
) -> Result<TcpLink<R>, Fail> {
    let mut pairs = Vec::new(alloc);
    for (name, listener) in ["alpha", "beta"].into_iter().zip(listeners) {
        let name = named(name)?;
        let address = format!(in alloc; "{}", listener.local_addr()?)?;
        pairs.push((name, Text::copy_of(alloc, address.as_str())?))?;
    }
    Ok(TcpLink::new(alloc, rt, pairs)?)
}

/// The next connection of a listener, which has brought the frame.
fn take_frame(listener: &TcpListener) -> Result<TcpStream, Fail> {
    let (mut stream, _) = listener.accept()?;
    let mut came = [0; 18];
    stream.read_exact(&mut came)?;
    if came.as_slice() != FRAME {
        return Err(Fail::new("another frame"));
    }
    Ok(stream)
}

#[test]
fn each_receiver_takes_its_own_frame(rt: HostRuntime) -> Result<(), Fail> {
    let (alpha, beta) = (named("alpha")?, named("beta")?);
    let (one, other) = (listen(&rt)?, listen(&rt)?);
    let mut link = link_to(rt, rt.alloc(), [&one, &other])?;
    assert!(rt; alpha.is_among(link.names()) && beta.is_among(link.names()));
    assert_eq!(rt; link.send(&beta, FRAME), Ok(()));
    take_frame(&other)?;
    assert_eq!(rt; link.send(&alpha, FRAME), Ok(()));
    take_frame(&one)?;
    Ok(())
}

/// A receiver that closes its connection behind a reply, or says more than it was asked, is connected to anew at the next
/// frame; one that does neither keeps its connection.
#[test]
fn a_closed_connection_costs_no_attempt(rt: HostRuntime) -> Result<(), Fail> {
    let alpha = named("alpha")?;
    let listener = listen(&rt)?;
    let mut link = link_to(rt, rt.alloc(), [&listener, &listener])?;
    let mut into = [0; 128];
    let mut kept = Vec::new(rt.alloc());
    for (reply, stays) in [
        (b"RECEIPT alpha 1\n".as_slice(), false),
        (b"RECEIPT alpha 1\nRECEIPT".as_slice(), true),
        (b"RECEIPT alpha 1\n".as_slice(), true),
    ] {
        assert!(rt; alpha.is_among(link.names()));
        assert_eq!(rt; link.send(&alpha, FRAME), Ok(()));
        let mut peer = take_frame(&listener)?;
        peer.write_all(reply)?;
        assert_eq!(rt; link.receipt(&alpha, &mut into), Ok(16));
        if stays {
            kept.push(peer)?;
        }
    }
    assert!(rt; alpha.is_among(link.names()));
    assert_eq!(rt; link.send(&alpha, FRAME), Ok(()));
    let mut last = kept.pop().ok_or("no connection")?;
    last.read_exact(&mut [0; 18])?;
    assert_eq!(rt; link.fault_count(), 0);
    Ok(())
}

#[test]
fn a_silent_receiver_fails_the_call(rt: HostRuntime) -> Result<(), Fail> {
    let alpha = named("alpha")?;
    let listener = listen(&rt)?;
    let link = link_to(rt, rt.alloc(), [&listener, &listener])?;
    let mut link = link.with_patience(Duration::from_millis(50));
    assert!(rt; alpha.is_among(link.names()));
    assert_eq!(rt; link.send(&alpha, FRAME), Ok(()));
    let _silent = take_frame(&listener)?;
    assert_eq!(rt; link.receipt(&alpha, &mut [0; 128]), Err(Failed));
    assert_eq!(rt; link.fault_count(), 1);
    Ok(())
}
