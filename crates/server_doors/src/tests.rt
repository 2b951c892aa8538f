//! Each door gives a connection and takes it back.
mod halls;

use crate::{Door, MemoryDoor, TcpDoor};
use news_io::{MemorySource, Sink, Source};
use news_types::Text;
use std::alloc::Global;
use std::io::{self, Read, Write};
use std::net::{Net, TcpListener, TcpStream};
use std::test::Fail;
use std::thread::{join, sleep};
use std::time::{Clock, Duration};

/// A door of two connections, with the inputs `one` and `two`, whose second call fails.
fn door_of_two(alloc: Global) -> Result<MemoryDoor, Fail> {
    let one = MemorySource::new(b"one".to_vec(alloc)?);
    let two = MemorySource::new(b"two".to_vec(alloc)?);
    let inputs = Vec::from_array(alloc, [one, two])?;
    Ok(MemoryDoor::new(alloc, inputs, vec![in alloc; 2]?))
}

/// The next connection of a door answers its first byte with the same byte, and is given back: the byte, or nothing where
/// the door gave no connection.
fn echo<G: Door>(door: &mut G) -> Option<u8> {
    let Ok((mut input, mut output)) = door.accept() else {
        return None;
    };
    let mut byte = [0];
    let read = input.read(&mut byte);
    let wrote = output.write(&byte);
    let passed = output.flush();
    door.give_back(input, output);
    match (read, wrote, passed) {
        (Ok(1), Ok(1), Ok(())) => Some(byte[0]),
        _ => None,
    }
}

#[test]
fn connections_are_given_in_order(rt: HostRuntime) -> Result<(), Fail> {
    let mut door = door_of_two(rt.alloc())?;
    assert_eq!(rt; echo(&mut door), Some(b'o'));
    assert_eq!(rt; echo(&mut door), None);
    assert_eq!(rt; echo(&mut door), Some(b't'));
    assert_eq!(rt; echo(&mut door), None);
    assert_eq!(rt; door.fault_count(), 2);
    let returned = door.returned();
    assert_eq!(rt; returned.len(), 2);
    assert_eq!(rt; returned[0].0.remaining(), b"ne".as_slice());
    assert_eq!(rt; returned[1].1.passed(), b"t".as_slice());
    Ok(())
}

/// Connects to an address as soon as somebody listens there.
fn reach<R: Net<Stream = TcpStream> + Clock>(rt: &R, address: &str) -> io::Result<TcpStream> {
    for _ in 0..1000 {
        if let Ok(stream) = TcpStream::connect(rt, address) {
            return Ok(stream);
        }
        sleep(rt, Duration::from_millis(10));
    }
    TcpStream::connect(rt, address)
}

/// A client that never ends its head is closed. One whose body comes byte by byte is answered.
fn ask<R: Net<Stream = TcpStream> + Clock>(rt: &R, address: &str) -> io::Result<u8> {
    let mut into = [0];
    let mut silent = reach(rt, address)?;
    silent.write_all(b"GET /queue HTTP/1.1\r\n")?;
    if silent.read(&mut into)? > 0 {
        return Ok(0);
    }
    let mut slow = reach(rt, address)?;
    slow.write_all(b"POST /requests HTTP/1.1\r\nContent-Length: 3\r\n\r\n")?;
    for byte in b"abc" {
        sleep(rt, Duration::from_millis(5));
        slow.write_all(&[*byte])?;
    }
    slow.read_exact(&mut into)?;
    Ok(into[0])
}

#[test]
fn a_door_over_tcp_listens(rt: HostRuntime) -> Result<(), Fail> {
    let alloc = rt.alloc();
    let free = TcpListener::bind(&rt, "127.0.0.1:0")?;
    let address = format!(in alloc; "{}", free.local_addr()?)?;
    drop(free);
    let mut door = TcpDoor::new(alloc, rt, Text::copy_of(alloc, address.as_str())?);
    door.patience = Duration::from_millis(500);
    let (echoed, read) = join(
        &rt,
        move || echo(&mut door),
        || ask(&rt, address.as_str()).ok(),
    );
    assert_eq!(rt; (echoed, read), (Some(b'P'), Some(b'P')));
    Ok(())
}
