//! What is watched gives the same bytes, or the same readings.

use news_io::{Clock, MemoryClock, MemorySource, Source};
use progress::{Content, Meter, Watched};
use std::test::Fail;

#[test]
fn a_watched_source_gives_its_bytes(rt: HostRuntime) -> Result<(), Fail> {
    let mut bytes = Vec::new(rt.alloc());
    bytes.extend_from_slice(b"one\ntwo\n")?;
    let mut watched = Watched::new(
        MemorySource::new(bytes),
        Some(Meter::new(rt.clone()?, Content::Lines)),
    );
    let mut into = [0; 4];
    assert_eq!(rt; watched.read(&mut into)?, 4);
    assert_eq!(rt; into.as_slice(), b"one\n".as_slice());
    assert_eq!(rt; watched.read(&mut into)?, 4);
    assert_eq!(rt; into.as_slice(), b"two\n".as_slice());
    assert_eq!(rt; watched.read(&mut into)?, 0);
    assert_eq!(rt; watched.has_shown(), false);
    Ok(())
}

#[test]
fn a_watched_clock_gives_its_readings(rt: HostRuntime) -> Result<(), Fail> {
    let mut readings = Vec::new(rt.alloc());
    readings.push(7)?;
    readings.push(9)?;
    let mut watched = Watched::new(
        MemoryClock::new(readings),
        Some(Meter::new(rt.clone()?, Content::Steps)),
    );
    assert_eq!(rt; watched.now(), 7);
    watched.rest();
    assert_eq!(rt; watched.now(), 9);
    assert_eq!(rt; watched.now(), 9);
    assert_eq!(rt; watched.has_shown(), false);
    Ok(())
}
