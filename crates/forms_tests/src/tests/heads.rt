//! Tests of `http_wire`: long heads and bodies, and devices that fail. Rows of connections are those of `plain_server`.

use super::given::only;
use http_wire::{Buffer, HttpRequest, Wire, read_request, write_response};
use news_io::{MemorySink, MemorySource, Sink};
use std::alloc::{AllocError, Global};
use std::test::Fail;

/// A connection's input, and what it gives: a line for each request, and its ending.
type Row = (&'static [u8], &'static [u8]);

const GET: &[u8] = b"GET /queue - open \n";

/// Says a word, and that no request came.
fn say(said: &mut Vec<u8>, word: &[u8]) -> Result<bool, AllocError> {
    said.extend_from_slice(word)?;
    Ok(false)
}

fn say_request(said: &mut Vec<u8>, request: &HttpRequest) -> Result<bool, AllocError> {
    said.extend_from_slice(request.method.as_str().as_bytes())?;
    said.push(b' ')?;
    said.extend_from_slice(request.target.as_str().as_bytes())?;
    said.push(b' ')?;
    match &request.user {
        Some(user) => said.extend_from_slice(user.as_bytes())?,
        None => said.push(b'-')?,
    }
    said.extend_from_slice(if request.close { b" close " } else { b" open " })?;
    said.extend_from_slice(request.body.as_slice())?;
    said.push(b'\n')?;
    Ok(true)
}

/// Says what comes next, and whether it is a request.
fn say_next(
    said: &mut Vec<u8>,
    buffer: &mut Buffer,
    source: &mut MemorySource,
) -> Result<bool, AllocError> {
    match read_request(buffer, source) {
        Wire::Request(request) => say_request(said, &request),
        Wire::End => say(said, b"End"),
        Wire::HeadFault => say(said, b"HeadFault"),
        Wire::TooLarge => say(said, b"TooLarge"),
        Wire::Chunked => say(said, b"Chunked"),
        Wire::ReadFault => say(said, b"ReadFault"),
        Wire::Memory => Err(AllocError),
    }
}

/// What a connection gives, read in pieces of at most so many bytes.
fn said_of(alloc: Global, input: &[u8], most: usize) -> Result<Vec<u8>, AllocError> {
    let mut source = MemorySource::new(input.to_vec(alloc)?).in_pieces_of(most.max(1));
    let mut said = Vec::new(alloc);
    let Ok(mut buffer) = Buffer::new(alloc) else {
        return Err(AllocError);
    };
    for _ in 0..9 {
        if !say_next(&mut said, &mut buffer, &mut source)? {
            break;
        }
    }
    Ok(said)
}

/// A beginning, so many times the middle, and an end.
fn long_input(
    alloc: Global,
    begin: &[u8],
    middle: &[u8],
    times: usize,
    end: &[u8],
) -> Result<Vec<u8>, AllocError> {
    let mut input = begin.to_vec(alloc)?;
    for _ in 0..times {
        input.extend_from_slice(middle)?;
    }
    input.extend_from_slice(end)?;
    Ok(input)
}

/// A long input and what it gives.
struct Long {
    begin: &'static [u8],
    middle: &'static [u8],
    times: usize,
    end: &'static [u8],
    said: &'static [u8],
}

/// As many lines and bytes as a head may have, and more.
const LONG: &[Long] = &[
    Long {
        begin: b"GET / HTTP/1.1\r\n",
        middle: b"a:b\r\n",
        times: 64,
        end: b"\r\n",
        said: b"GET / - open \nEnd",
    },
    Long {
        begin: b"GET / HTTP/1.1\r\n",
        middle: b"a:b\r\n",
        times: 65,
        end: b"\r\n",
        said: b"TooLarge",
    },
    Long {
        begin: b"GET / HTTP/1.1\r\n",
        middle: b"a:b\r\n",
        times: 65,
        end: b"",
        said: b"HeadFault",
    },
    Long {
        begin: b"GET / HTTP/1.1\r\n",
        middle: b"a:b\r\n",
        times: 65,
        end: b"\x01\r\n",
        said: b"HeadFault",
    },
    Long {
        begin: b"GET / HTTP/1.1\r\n",
        middle: b"a:b\r\n",
        times: 64,
        end: b"Content-Length: a\r\n\r\n",
        said: b"HeadFault",
    },
    Long {
        begin: b"GET / HTTP/1.1\r\n",
        middle: b"a:b\r\n",
        times: 64,
        end: b"Transfer-Encoding: a\r\n\r\n",
        said: b"Chunked",
    },
    // Lines without an end, and a line without one.
    Long {
        begin: b"GET / HTTP/1.1\n",
        middle: b"a:\n",
        times: 5461,
        end: b"",
        said: b"TooLarge",
    },
    Long {
        begin: b"GET /",
        middle: b"a",
        times: 16378,
        end: b"",
        said: b"HeadFault",
    },
    Long {
        begin: b"GET /",
        middle: b"a",
        times: 16379,
        end: b"",
        said: b"TooLarge",
    },
    // A target that is no UTF-8, and ends in byte 16384 or not yet.
    Long {
        begin: b"GET /",
        middle: b"\xff",
        times: 16378,
        end: b" HTTP/1.1\r\n\r\n",
        said: b"HeadFault",
    },
    Long {
        begin: b"GET /",
        middle: b"\xff",
        times: 16379,
        end: b" HTTP/1.1\r\n\r\n",
        said: b"TooLarge",
    },
    // Heads of 16384 bytes and of one more.
    Long {
        begin: b"GET / HTTP/1.1\r\na:",
        middle: b"b",
        times: 16362,
        end: b"\r\n\r\n",
        said: b"GET / - open \nEnd",
    },
    Long {
        begin: b"GET / HTTP/1.1\r\na:",
        middle: b"b",
        times: 16363,
        end: b"\r\n\r\n",
        said: b"TooLarge",
    },
];

/// The first row that gives something else.
fn first_wrong_long(alloc: Global, most: usize) -> Result<Option<usize>, AllocError> {
    for (i, row) in LONG.iter().enumerate() {
        let input = long_input(alloc, row.begin, row.middle, row.times, row.end)?;
        if said_of(alloc, &input, most)?.as_slice() != row.said {
            return Ok(Some(i));
        }
    }
    Ok(None)
}

#[test]
fn long_heads_are_measured_in_any_pieces(rt: HostRuntime) -> Result<(), Fail> {
    assert_eq!(rt; first_wrong_long(rt.alloc(), 4096)?, None);
    assert_eq!(rt; first_wrong_long(rt.alloc(), 100)?, None);
    Ok(())
}

/// The longest body, and the bytes behind it.
#[test]
fn the_longest_body_is_read(rt: HostRuntime) -> Result<(), Fail> {
    let alloc = rt.alloc();
    let begin = b"POST / HTTP/1.1\r\nContent-Length: 4194304\r\n\r\n";
    let input = long_input(alloc, begin, b"a", 4194304, b"GET /queue HTTP/1.1\r\n\r\n")?;
    let mut source = MemorySource::new(input);
    let Ok(mut buffer) = Buffer::new(alloc) else {
        return Err(Fail::new("no memory"));
    };
    let mut said = Vec::new(alloc);
    assert!(rt; say_next(&mut said, &mut buffer, &mut source)?);
    assert_eq!(rt; said.len(), 4194304 + 15);
    said.clear();
    assert!(rt; say_next(&mut said, &mut buffer, &mut source)?);
    assert_eq!(rt; said.as_slice(), GET);
    Ok(())
}

/// A failed read is told, and loses nothing.
#[test]
fn a_failed_read_loses_nothing(rt: HostRuntime) -> Result<(), Fail> {
    let alloc = rt.alloc();
    let mut failing = Vec::new(alloc);
    failing.push(2u64)?;
    failing.push(6)?;
    let input = b"POST / HTTP/1.1\r\nContent-Length: 20\r\n\r\n01234567890123456789".to_vec(alloc)?;
    let mut source = MemorySource::new(input)
        .in_pieces_of(10)
        .failing_at(failing);
    let Ok(mut buffer) = Buffer::new(alloc) else {
        return Err(Fail::new("no memory"));
    };
    let mut said = Vec::new(alloc);
    for _ in 0..4 {
        say_next(&mut said, &mut buffer, &mut source)?;
    }
    assert_eq!(rt;
        said.as_slice(),
        b"ReadFaultReadFaultPOST / - open 01234567890123456789\nEnd".as_slice()
    );
    assert_eq!(rt; source.fault_count(), 2);
    Ok(())
}

/// Whole requests, each of which comes in one read.
const WHOLE: &[Row] = &[
    (b"GET /queue HTTP/1.1\r\n\r\n", GET),
    (
        b"POST / HTTP/1.1\r\nContent-Length: 2\r\n\r\nab",
        b"POST / - open ab\n",
    ),
];

/// Nothing is read behind a whole request: the next read would fail.
#[test]
fn a_whole_request_is_not_waited_on(rt: HostRuntime) -> Result<(), Fail> {
    let alloc = rt.alloc();
    for row in WHOLE {
        let mut source = MemorySource::new(row.0.to_vec(alloc)?).failing_at(only(alloc, 2)?);
        let Ok(mut buffer) = Buffer::new(alloc) else {
            return Err(Fail::new("no memory"));
        };
        let mut said = Vec::new(alloc);
        assert!(rt; say_next(&mut said, &mut buffer, &mut source)?);
        assert_eq!(rt; said.as_slice(), row.1);
        assert_eq!(rt; source.fault_count(), 0);
    }
    Ok(())
}

const DONE: &[u8] = b"{\"answer\":\"done\",\"entry\":1}";

const ANSWERED: &[u8] =
    b"HTTP/1.1 200 \r\nContent-Type: application/json\r\nContent-Length: 27\r\n\r\n{\"answer\":\"done\",\"entry\":1}";

const NONE: &[u8] = b"HTTP/1.1 404 \r\nContent-Type: application/json\r\nContent-Length: 0\r\n\r\n";

/// What is written of a response, where a sink takes so many bytes in a call and this call fails.
fn written(
    alloc: Global,
    status: u16,
    body: &[u8],
    most: usize,
    failing: u64,
) -> Result<Vec<u8>, AllocError> {
    let mut sink = MemorySink::new(alloc)
        .in_pieces_of(most.max(1))
        .failing_at(only(alloc, failing)?);
    let wrote = write_response(&mut sink, status, "application/json", body).is_ok();
    let wrote = wrote && sink.flush().is_ok();
    // Without a call that is to fail, only want of memory can have stopped it.
    if !wrote && failing == 0 {
        return Err(AllocError);
    }
    sink.as_bytes().to_vec(alloc)
}

#[test]
fn responses_are_written_to_any_sink(rt: HostRuntime) -> Result<(), Fail> {
    let alloc = rt.alloc();
    for most in [1, 30, 4096] {
        assert_eq!(rt; written(alloc, 200, DONE, most, 0)?.as_slice(), ANSWERED);
        assert_eq!(rt; written(alloc, 404, b"", most, 0)?.as_slice(), NONE);
    }
    // The second call would be another write: head and body are one.
    assert_eq!(rt; written(alloc, 200, DONE, 4096, 2)?.as_slice(), ANSWERED);
    // A sink that fails has the first bytes.
    assert_eq!(rt;
        written(alloc, 200, DONE, 30, 3)?.as_slice(),
        &ANSWERED[..60]
    );
    Ok(())
}
