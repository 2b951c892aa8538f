//! Tests of `entry_segments`: segments counted by hand. Bytes that are no segment are sides of `desk_sessions`.

ghost use Rattle.entry_segments.specs.Answers.{IsWhole};

use entry_segments::{Packed, Segment, pack, unpack, unpack_payloads};
use news_types::{Bytes, Memory};
use std::alloc::Global;
use std::test::Fail;

/// A subscriber is added and a story flashed, both at 1000.
const FIRST: &[u8] =
    b"\0\0\0\0\0\0\0\0\0\0\0\x02\0\0\xe8\x07\x06\0\0\0\x1c\x05admin\0\0\0\0\0\0\0\x01\x0c\x05alpha\0\0\x01\x03all\0\x06\0\0\0\x3c\x05admin\0\0\0\0\0\0\0\x02\x12\0\x03\0\0\0\x04fire\0\0\0\x04Fire\0\0\0\0\0\0\0\x02en\0\0\0\0\0\0\0\x06Smoke.\0\0\0";

/// These behind many others; then two attempts, a receipt, and at the end of time an advance and a halt.
const SECOND: &[u8] =
    b"\0\0\xff\xff\xff\xff\xff\xf0\0\0\0\x07\0\x02\x05alpha\x04beta\xe8\x07\x06\0\0\0\x1c\x05admin\0\0\0\0\0\0\0\x01\x0c\x05alpha\0\0\x01\x03all\0\x06\0\0\0\x3c\x05admin\0\0\0\0\0\0\0\x02\x12\0\x03\0\0\0\x04fire\0\0\0\x04Fire\0\0\0\0\0\0\0\x02en\0\0\0\0\0\0\0\x06Smoke.\0\0\0\0\x02\0\x01\x01\x05\x03\0\x01\x01\xc3\x01\x02\0\0\xac\x02\xcf\xf9\xd0\xff\xaf\x07\x01\0\x04";

/// A story with a copyright comes in, behind two others.
const CREDITED: &[u8] =
    b"\0\0\0\0\0\0\0\x02\0\0\0\x01\0\0\xe8\x07\x07\0\0\0\x42\x03pap\0\0\0\x04bas1\0\0\0\0\0\0\x03\xe7\0\0\0\0\0\0\x07\xd0\x01\x03\x02\0\0\0\x01s\0\0\0\x01h\0\0\0\0\0\0\0\0\0\0\0\x02pl\0\0\0\x01b\0\0\0\0\x01X";

/// Packs a segment's entries again.
fn repack(alloc: Global, segment: &Segment) -> Result<Packed, Memory>
    requires { IsWhole segment.now }
{
    pack(alloc, segment.base, segment.entries.as_slice())
}

/// What is unpacked is packed to the same bytes.
#[test]
fn packs_again(rt: HostRuntime) -> Result<(), Fail> {
    let rows: [(&[u8], usize); 3] = [(FIRST, 2), (SECOND, 7), (CREDITED, 1)];
    for (bytes, count) in rows {
        match unpack(rt.alloc(), bytes) {
            Ok(segment) => {
                assert_eq!(rt; segment.entries.as_slice().len(), count);
                let packed = repack(rt.alloc(), &segment).ok().ok_or("memory")?;
                assert_eq!(rt; packed.taken, count);
                assert_eq!(rt; packed.payload.as_slice(), bytes);
            }
            Err(_) => return Err(Fail::from("no segment")),
        }
    }
    assert_eq!(rt; FIRST.len(), 115);
    Ok(())
}

/// The payloads of SECOND's entries: of each its moment, its tag and its fields.
const PAYLOADS: &[&[u8]] = &[
    b"\0\0\0\0\0\0\x03\xe8\x06\x05admin\0\0\0\0\0\0\0\x01\x0c\x05alpha\0\0\x01\x03all",
    b"\0\0\0\0\0\0\x03\xe8\x06\x05admin\0\0\0\0\0\0\0\x02\x12\0\x03\0\0\0\x04fire\0\0\0\x04Fire\0\0\0\0\0\0\0\x02en\0\0\0\0\0\0\0\x06Smoke.\0\0\0",
    b"\0\0\0\0\0\0\x03\xe8\x02\x04beta\0\0\0\x01",
    b"\0\0\0\0\0\0\x03\xed\x03\x04beta\0\0\0\x01",
    b"\0\0\0\0\0\0\x04\xb0\x02\x05alpha\0\0\x01\x2c",
    b"\0\0\0\x3a\xff\xf4\x41\x7f\x01",
    b"\0\0\0\x3a\xff\xf4\x41\x7f\x04",
];

/// How many payloads from the first on are spelled so.
fn spelled(payloads: &[Bytes], wanted: &[&[u8]]) -> usize {
    let mut place = 0;
    for payload in payloads {
        if place >= wanted.len() || payload.as_slice() != wanted[place] {
            return place;
        }
        place += 1;
    }
    place
}

/// What is unpacked to payloads: the base, how many there are, and how many from the first on are spelled so.
fn told(alloc: Global, bytes: &[u8], wanted: &[&[u8]]) -> Option<(u64, usize, usize)> {
    match unpack_payloads(alloc, bytes) {
        Ok(read) => Some((
            read.base,
            read.payloads.len(),
            spelled(read.payloads.as_slice(), wanted),
        )),
        Err(_) => None,
    }
}

#[test]
fn spells_payloads(rt: HostRuntime) {
    assert_eq!(rt;
        told(rt.alloc(), SECOND, PAYLOADS),
        Some((281474976710640, 7, 7))
    );
}
