//! Tests of `frame_run`: devices that fail, and inputs that are too long. Rows of frames are lines of `desk_sessions`.
ghost use Rattle.std.specs.Prelude.{◌<◌, ◌^◌};

use super::given::{named, only, source};
use feed_receiver::Receiver;
use frame_run::run_frames;
use news_io::{MemoryKeeper, MemorySink, MemorySource};
use std::alloc::Global;
use std::test::Fail;

/// The most bytes of an input.
const MOST: u64 = 4294967296;

/// The frames 1, 1, 3 and 2, of 18, 18, 16 and 16 bytes.
const FRAMES: &[u8] = b"FRAME alpha 1 2\nhiFRAME alpha 1 2\nhiFRAME alpha 3 0\nFRAME alpha 2 0\n";

// What a run left.
#[derive(Drop)]
struct Left {
    status: u8,
    output: MemorySink,
    count: u32,
}

// The run of the receiver `alpha`, which holds nothing yet.
fn run(
    alloc: Global,
    mut input: MemorySource,
    mut output: MemorySink,
    keeper: MemoryKeeper,
    most: u64,
) -> Result<Left, Fail>
    requires { most < 2 ^ 63 }
{
    let name = named("alpha")?;
    let Ok(mut receiver) = Receiver::open(alloc, keeper, name, &[]) else {
        return Err(Fail::new("not opened"));
    };
    let status = run_frames(alloc, &mut input, &mut output, &mut receiver, most);
    if status == 9 {
        return Err(Fail::new("no memory"));
    }
    Ok(Left {
        status,
        output,
        count: receiver.count(),
    })
}

/// One frame lies whole in the first 18 bytes, and in the first 20, of which a second read fails.
#[test]
fn frames_before_the_end_of_reading(rt: HostRuntime) -> Result<(), Fail> {
    let alloc = rt.alloc();
    let long = run(
        alloc,
        source(alloc, FRAMES, 1000, 0)?,
        MemorySink::new(alloc),
        MemoryKeeper::new(alloc),
        18,
    )?;
    assert_eq!(rt; long.status, 12);
    assert_eq!(rt;
        long.output.passed(),
        b"RECEIPT alpha 1\n{\"status\":12}\n".as_slice()
    );
    let input = source(alloc, FRAMES, 20, 2)?;
    let failed = run(
        alloc,
        input,
        MemorySink::new(alloc),
        MemoryKeeper::new(alloc),
        MOST,
    )?;
    assert_eq!(rt; failed.status, 4);
    assert_eq!(rt;
        failed.output.passed(),
        b"RECEIPT alpha 1\n{\"status\":4}\n".as_slice()
    );
    Ok(())
}

/// A keeper that fails at its second frame, and one whose limit the first passes.
#[test]
fn keepers_that_end_it(rt: HostRuntime) -> Result<(), Fail> {
    let alloc = rt.alloc();
    let failing = MemoryKeeper::new(alloc).failing_at(only(alloc, 2)?);
    let failed = run(
        alloc,
        source(alloc, FRAMES, 1000, 0)?,
        MemorySink::new(alloc),
        failing,
        MOST,
    )?;
    assert_eq!(rt; failed.status, 6);
    assert_eq!(rt;
        failed.output.passed(),
        b"RECEIPT alpha 1\nRECEIPT alpha 1\nRECEIPT alpha 1\n{\"status\":6}\n".as_slice()
    );
    assert_eq!(rt; failed.count, 1);
    let full = run(
        alloc,
        source(alloc, FRAMES, 1000, 0)?,
        MemorySink::new(alloc),
        MemoryKeeper::starting_at(alloc, 1073741802),
        MOST,
    )?;
    assert_eq!(rt; full.status, 8);
    assert_eq!(rt; full.output.passed(), b"{\"status\":8}\n".as_slice());
    assert_eq!(rt; full.count, 0);
    Ok(())
}

/// The output fails at the second receipt, behind a flush, a write and a flush: its frame is known, and nothing more is taken.
#[test]
fn an_output_that_fails(rt: HostRuntime) -> Result<(), Fail> {
    let alloc = rt.alloc();
    let output = MemorySink::new(alloc).failing_at(only(alloc, 4)?);
    let left = run(
        alloc,
        source(alloc, FRAMES, 1000, 0)?,
        output,
        MemoryKeeper::new(alloc),
        MOST,
    )?;
    assert_eq!(rt; left.status, 5);
    assert_eq!(rt; left.output.passed(), b"RECEIPT alpha 1\n".as_slice());
    assert_eq!(rt; left.count, 1);
    Ok(())
}
