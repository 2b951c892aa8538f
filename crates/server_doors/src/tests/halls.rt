//! Clients of a door over TCP, over the loopback and in one thread: what a client sends waits in the system.
use crate::hall::Hall;
use crate::key::has_key;
use crate::reach::{Reach, reach_of};
use news_io::{Sink, Source};
use std::alloc::Global;
use std::io::{Read, Write};
use std::net::{Net, TcpListener, TcpStream};
use std::test::Fail;
use std::time::{Clock, Duration};

const REQUEST: &[u8] = b"GET /items/1 HTTP/1.1\r\nX-User: admin\r\n\r\n";

/// The two halves of the request.
const HALVES: (&[u8], &[u8]) = (b"GET /items/1", b" HTTP/1.1\r\nX-User: admin\r\n\r\n");

const QUESTION: &[u8] = b"GET /queue HTTP/1.1\nX-User: admin\n\n";

fn new_hall<R: Net<Listener = TcpListener, Stream = TcpStream> + Clock>(
    rt: &R,
    alloc: Global,
) -> Result<Hall, Fail> {
    let patience = Duration::from_secs(60);
    Ok(Hall::open(rt, alloc, "127.0.0.1:0", patience)?)
}

/// A client that has sent some bytes.
fn client<R: Net<Listener = TcpListener, Stream = TcpStream>>(
    rt: &R,
    hall: &Hall,
    sent: &[u8],
) -> Result<TcpStream, Fail> {
    let mut stream = TcpStream::connect(rt, hall.listener.local_addr()?)?;
    stream.write_all(sent)?;
    Ok(stream)
}

/// The next connection gives this request. It is answered with a byte, and given back.
fn answers<R: Clock + Eprint>(rt: &R, hall: &mut Hall, request: &[u8]) -> Result<bool, Fail> {
    let (mut source, mut sink) = hall.next(rt, None)?;
    let mut into = [0; 100];
    let (Ok(count), Ok(_)) = (source.read(&mut into), sink.write(b"!")) else {
        return Ok(false);
    };
    let passed = sink.flush();
    hall.take_back(source, sink);
    Ok(passed.is_ok() && &into[..count] == request)
}

#[test]
fn half_a_head_keeps_nobody_waiting(rt: HostRuntime) -> Result<(), Fail> {
    let mut hall = new_hall(&rt, rt.alloc())?;
    let mut silent = client(&rt, &hall, HALVES.0)?;
    let mut good = client(&rt, &hall, REQUEST)?;
    assert!(rt; answers(&rt, &mut hall, REQUEST)?);
    good.read_exact(&mut [0])?;
    silent.write_all(HALVES.1)?;
    assert!(rt; answers(&rt, &mut hall, REQUEST)?);
    silent.read_exact(&mut [0])?;
    Ok(())
}

/// Sixty of the clients hold a place each, and ten others come through the four that are left.
#[test]
fn seventy_clients(rt: HostRuntime) -> Result<(), Fail> {
    let mut hall = new_hall(&rt, rt.alloc())?;
    let mut slow = Vec::new(rt.alloc());
    for _ in 0..60 {
        slow.push(client(&rt, &hall, HALVES.0)?)?;
    }
    let mut good = Vec::new(rt.alloc());
    for _ in 0..10 {
        good.push(client(&rt, &hall, QUESTION)?)?;
    }
    for mut one in good {
        assert!(rt; answers(&rt, &mut hall, QUESTION)?);
        one.read_exact(&mut [0])?;
    }
    Ok(())
}

/// Two requests and the half of a third one: the connection rests behind the second, and goes on with the third.
#[test]
fn a_connection_goes_on(rt: HostRuntime) -> Result<(), Fail> {
    let mut hall = new_hall(&rt, rt.alloc())?;
    let mut one = client(&rt, &hall, REQUEST)?;
    one.write_all(QUESTION)?;
    one.write_all(HALVES.0)?;
    let (mut source, sink) = hall.next(&rt, None)?;
    let mut into = [0; 100];
    assert_eq!(rt; source.read(&mut into), Ok(REQUEST.len()));
    assert_eq!(rt; source.read(&mut into), Ok(QUESTION.len()));
    assert_eq!(rt; source.read(&mut into), Ok(0));
    hall.take_back(source, sink);
    one.write_all(HALVES.1)?;
    assert!(rt; answers(&rt, &mut hall, REQUEST)?);
    one.read_exact(&mut [0])?;
    Ok(())
}

#[test]
fn requests_reach_so_far(rt: HostRuntime) -> Result<(), Fail> {
    for (bytes, reach) in [
        (b"".as_slice(), Reach::Unfinished),
        (b"\r\n\n", Reach::Unfinished),
        (b"GET / HTTP/1.1\r\n", Reach::Unfinished),
        (b"GET / HTTP/1.1\r\n\r", Reach::Unfinished),
        (b"GET / HTTP/1.1\r\n\r\n", Reach::Whole(18)),
        (b"\r\n\nGET / HTTP/1.1\n\nGET", Reach::Whole(19)),
        (
            b"PUT / HTTP/1.1\ncontent-LENGTH: \t2\t\r\n\r\na",
            Reach::Unfinished,
        ),
        (
            b"PUT / HTTP/1.1\ncontent-LENGTH: \t2\t\r\n\r\nabc",
            Reach::Whole(40),
        ),
        (b"PUT / HTTP/1.1\nContent-Length: +2\n\nab", Reach::Refused),
        (
            b"PUT / HTTP/1.1\nContent-Length: 4194305\n\n",
            Reach::Refused,
        ),
        (
            b"PUT / HTTP/1.1\nContent-Length: 4194304\n\n",
            Reach::Unfinished,
        ),
    ] {
        assert_eq!(rt; reach_of(bytes), reach, "{}", bytes.len());
    }
    assert_eq!(rt; reach_of(&[b'a'; 16383]), Reach::Unfinished);
    assert_eq!(rt; reach_of(&[b'a'; 16384]), Reach::Refused);
    Ok(())
}

#[test]
fn keys_are_compared(rt: HostRuntime) -> Result<(), Fail> {
    for (head, has) in [
        (b"GET / HTTP/1.1\r\nX-Key: sesame\r\n\r\n".as_slice(), true),
        (b"GET / HTTP/1.1\nA: b\nx-KEY:\tsesame \n\nabc", true),
        (b"GET / HTTP/1.1\r\nX-Key: sesame\r\n", false),
        (b"GET / HTTP/1.1\r\nX-User: sesame\r\n\r\n", false),
        (b"GET / HTTP/1.1\r\nX-Key: Sesame\r\n\r\n", false),
        (b"GET / HTTP/1.1\r\nX-Key: sesam\r\n\r\n", false),
        (b"GET / HTTP/1.1\r\nX-Key : sesame\r\n\r\n", false),
        (b"GET / HTTP/1.1\r\nX-Key:\r\n sesame\r\n\r\n", false),
        (b"GET / HTTP/1.1\nX-Key: sesame\nX-Key: sesame\n\n", false),
        (b"GET / HTTP/1.1\n\nX-Key: sesame\n\n", false),
    ] {
        assert_eq!(rt; has_key(head, b"sesame"), has, "{}", head.len());
    }
    Ok(())
}
