//! Tests of `feed_frames`: frames written by hand from the formats, with the URIs of items from another program.

use super::given::{FIRE, Told, named, publication};
use feed_frames::write_frame;
use news_types::{Bytes, Format, Kind};
use std::alloc::Global;
use std::test::Fail;
use uuid::Uuid;

const STORE: u128 = 0x6ba7b810_9dad_11d1_80b4_00c04fd430c8;

/// The frame at place 1.
fn framed(alloc: Global, format: Format, subscriber: &str, told: &Told) -> Result<Bytes, Fail> {
    let subscriber = named(subscriber)?;
    let publication = publication(alloc, told)?;
    let store = Uuid::from_u128(STORE);
    let frame = write_frame(alloc, store, format, &subscriber, 1, &publication);
    drop(publication);
    Ok(frame?)
}

const WIRE: &[u8] =
    b"FRAME beta 1 65\n\x01NWS0001 3 n 1 FIRST\r\nfire\r\n\x02Fire\r\nSmoke.\r\n\x031970-01-01T00:16:40Z\x04";

const KILLED: &[u8] =
    b"FRAME beta 1 64\n\x01NWS0001 3 n 1 KILL\r\nfire\r\n\x02Fire\r\nSmoke.\r\n\x031970-01-01T00:16:40Z\x04";

/// Items of a store and their frames.
const ITEMS: [(u32, &[u8]); 3] = [
    (
        1,
        b"FRAME alpha 1 229\n{\"body_text\":\"Smoke.\",\"headline\":\"Fire\",\"language\":\"en\",\"pubstatus\":\"usable\",\"slugline\":\"fire\",\"type\":\"text\",\"urgency\":3,\"uri\":\"urn:uuid:57bf23fa-065a-5b38-9376-c0603c9dfb1d\",\"version\":\"1\",\"versioncreated\":\"1970-01-01T00:16:40Z\"}",
    ),
    (
        2,
        b"FRAME alpha 1 229\n{\"body_text\":\"Smoke.\",\"headline\":\"Fire\",\"language\":\"en\",\"pubstatus\":\"usable\",\"slugline\":\"fire\",\"type\":\"text\",\"urgency\":3,\"uri\":\"urn:uuid:39354703-67b0-59b8-8625-1ce8a83c528d\",\"version\":\"1\",\"versioncreated\":\"1970-01-01T00:16:40Z\"}",
    ),
    (
        4294967295,
        b"FRAME alpha 1 229\n{\"body_text\":\"Smoke.\",\"headline\":\"Fire\",\"language\":\"en\",\"pubstatus\":\"usable\",\"slugline\":\"fire\",\"type\":\"text\",\"urgency\":3,\"uri\":\"urn:uuid:8e15e7c4-03b2-5ba1-9f6a-75e2d09e19dc\",\"version\":\"1\",\"versioncreated\":\"1970-01-01T00:16:40Z\"}",
    ),
];

#[test]
fn frames(rt: HostRuntime) -> Result<(), Fail> {
    let alloc = rt.alloc();
    assert!(rt; framed(alloc, Format::Text7901, "beta", &FIRE)?.as_slice() == WIRE);
    let killed = Told {
        kind: Kind::Kill,
        ..FIRE
    };
    assert!(rt; framed(alloc, Format::Text7901, "beta", &killed)?.as_slice() == KILLED);
    Ok(())
}

#[test]
fn uris(rt: HostRuntime) -> Result<(), Fail> {
    for (item, frame) in ITEMS {
        let told = Told { item, ..FIRE };
        assert!(rt; framed(rt.alloc(), Format::Ninjs, "alpha", &told)?.as_slice() == frame);
    }
    Ok(())
}
