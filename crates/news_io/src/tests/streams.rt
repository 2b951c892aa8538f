//! Sources, sinks and clocks.
ghost use Rattle.std.specs.Prelude.{◌<◌, length};

use super::numbers;
use crate::{
    Clock, MemoryClock, MemorySink, MemorySource, Sink, Source, StdClock, StdSink, StdSource,
    write_all,
};
use std::alloc::AllocError;
use std::io::Write;
use std::test::Fail;
use std::{fs, io};

const TEXT: &[u8] = b"fire in Strasse";

/// All bytes of a source, and how many reads failed on the way.
fn drained<S: Source>(source: &mut S, into: &mut Vec<u8>) -> Result<u64, AllocError> {
    let mut failures = 0u64;
    let mut piece = [0; 4];
    for _ in 0..100 {
        match source.read(&mut piece) {
            Ok(0) => break,
            Ok(count) => into.extend_from_slice(&piece[..count])?,
            Err(_) => failures = failures.saturating_add(1),
        }
    }
    Ok(failures)
}

#[test]
fn a_source_gives_its_bytes_in_any_pieces(rt: HostRuntime) -> Result<(), Fail> {
    let alloc = rt.alloc();
    for (most, failing) in [
        (1, [].as_slice()),
        (3, [1, 3].as_slice()),
        (100, [2].as_slice()),
    ] {
        let mut source = MemorySource::new(TEXT.to_vec(alloc)?)
            .in_pieces_of(most)
            .failing_at(numbers(alloc, failing)?);
        let mut bytes = Vec::new(alloc);
        let failures = drained(&mut source, &mut bytes)?;
        assert_eq!(rt; bytes.as_slice(), TEXT, "at most {most}");
        assert_eq!(rt; failures as usize, failing.len());
        assert_eq!(rt; source.fault_count(), failures);
        assert!(rt; source.remaining().is_empty());
    }
    Ok(())
}

#[test]
fn a_sink_takes_what_it_is_given_up_to_a_failure(rt: HostRuntime) -> Result<(), Fail> {
    let alloc = rt.alloc();
    let mut sink = MemorySink::new(alloc).in_pieces_of(4);
    if write_all(&mut sink, TEXT).is_err() {
        assert_eq!(rt; sink.fault_count(), 1, "refused growth counts");
        return Err(Fail::new("no memory"));
    }
    assert_eq!(rt; sink.passed(), [].as_slice(), "held back up to a flush");
    assert!(rt; sink.flush().is_ok());
    assert_eq!(rt; sink.as_bytes(), TEXT);
    assert_eq!(rt; sink.passed(), TEXT);
    let mut sink = sink.failing_at(numbers(alloc, &[2, 3])?);
    assert!(rt; write_all(&mut sink, b"Smoke.").is_err());
    assert!(rt; sink.flush().is_err());
    assert_eq!(rt; sink.as_bytes(), b"fire in StrasseSmok".as_slice());
    assert_eq!(rt; sink.passed(), TEXT, "a failed flush passes nothing on");
    assert_eq!(rt; sink.fault_count(), 2);
    Ok(())
}

#[test]
fn a_clock_gives_its_readings_and_then_the_last(rt: HostRuntime) -> Result<(), Fail> {
    let mut clock = MemoryClock::new(vec![in rt.alloc(); 5000, 1400, 6000]?);
    let mut shown = Vec::new(rt.alloc());
    for _ in 0..5 {
        shown.push(clock.now())?;
        clock.rest();
    }
    assert_eq!(rt; shown.as_slice(), [5000, 1400, 6000, 6000, 6000].as_slice());
    Ok(())
}

#[test]
fn standard_input_is_read_through_a_pipe(rt: HostRuntime) -> Result<(), Fail> {
    let (reader, mut writer) = io::pipe(&rt)?;
    writer.write_all(TEXT)?;
    drop(writer);
    let mut source = StdSource::new(rt.alloc(), reader)?;
    let mut bytes = Vec::new(rt.alloc());
    assert_eq!(rt; drained(&mut source, &mut bytes)?, 0);
    assert_eq!(rt; bytes.as_slice(), TEXT);
    assert_eq!(rt; source.fault_count(), 0);
    Ok(())
}

#[test]
fn standard_output_is_written_when_it_is_flushed(rt: HostRuntime) -> Result<(), Fail> {
    const PATH: &str = "news_io_sink";
    let mut sink = StdSink::new(rt.alloc(), fs::File::create(&rt, PATH)?)?;
    assert!(rt; write_all(&mut sink, TEXT).is_ok());
    assert_eq!(rt; fs::metadata(&rt, PATH)?.len(), 0);
    assert!(rt; sink.flush().is_ok());
    assert_eq!(rt; fs::read_to_string(&rt, PATH)?.as_bytes(), TEXT);
    // A file that is open for reading alone takes nothing.
    let mut refusing = StdSink::new(rt.alloc(), fs::File::open(&rt, PATH)?)?;
    assert!(rt; refusing.write(TEXT).is_ok());
    assert!(rt; refusing.flush().is_err());
    assert_eq!(rt; refusing.fault_count(), 1);
    fs::remove_file(&rt, PATH)?;
    Ok(())
}

#[test]
fn the_clock_shows_the_time(rt: HostRuntime) {
    let mut clock = StdClock::new(rt);
    let first = clock.now();
    clock.rest();
    let second = clock.now();
    // From 2024-05-01 to 9999-12-31.
    assert!(rt; first > 1714550400 && second >= first && second <= 253402300799);
}
