//! Keepers.
ghost use Rattle.std.specs.Prelude.{◌≡◌, ◌≤◌, ◌++◌, [], ◌∷◌, length, IfOk};
ghost use Rattle.news_io.specs.Keeper.{framed, IsFramed};

use super::numbers;
use crate::{AppendFault, Keeper, MemoryKeeper};
use std::alloc::{AllocError, Global};
use std::test::Fail;

/// The most bytes of a log that requests may use.
const LIMIT: u64 = 1073737728;

/// An entry of 29 bytes: at 1000, the first request of `admin` adds the desk `city`.
const ENTRY: &[u8] = b"\0\0\0\0\0\0\x03\xe8\x06\x05admin\0\0\0\0\0\0\0\x01\x03\x04city";

/// The frame of a payload.
fn frame_of(alloc: Global, payload: &[u8]) -> Result<Vec<u8>, AllocError>
    requires { length payload.now ≤ 4194304 }
    ensures { IfOk result (λ bytes. IsFramed bytes.items) }
{
    let mut bytes = (payload.len() as u32).to_be_bytes().to_vec(alloc)?;
    bytes.extend_from_slice(payload)?;
    bytes.push(0)?;
    Ok(bytes)
}

/// Appends a payload, and tells what was answered.
fn appended<K: Keeper>(
    keeper: &mut K,
    alloc: Global,
    payload: &[u8],
) -> Result<Result<(), AppendFault>, AllocError>
    requires { length payload.now ≤ 4194304 }
{
    let framed = frame_of(alloc, payload)?;
    Ok(keeper.append(framed.as_slice(), LIMIT))
}

#[test]
fn a_record_is_kept_up_to_the_limit(rt: HostRuntime) -> Result<(), Fail> {
    let alloc = rt.alloc();
    let mut last = MemoryKeeper::starting_at(alloc, 1073737694);
    assert_eq!(rt; appended(&mut last, alloc, ENTRY)?, Ok(()));
    assert_eq!(rt; last.size(), LIMIT);
    let mut full = MemoryKeeper::starting_at(alloc, 1073737695);
    assert_eq!(rt;
        appended(&mut full, alloc, ENTRY)?,
        Err(AppendFault::Full {
            size: 1073737695,
            length: 29
        })
    );
    assert!(rt; full.records().is_empty());
    assert_eq!(rt; full.size(), 1073737695);
    assert_eq!(rt; full.call_count(), 0);
    Ok(())
}

#[test]
fn records_are_read_back_in_order(rt: HostRuntime) -> Result<(), Fail> {
    let alloc = rt.alloc();
    let mut keeper = MemoryKeeper::new(alloc).failing_at(numbers(alloc, &[2])?);
    assert_eq!(rt; keeper.size(), 65);
    if appended(&mut keeper, alloc, ENTRY)? == Err(AppendFault::Fault) {
        assert_eq!(rt; keeper.fault_count(), 1, "refused growth counts");
        assert!(rt; keeper.records().is_empty() && keeper.size() == 65);
        return Err(Fail::new("no memory"));
    }
    assert_eq!(rt;
        appended(&mut keeper, alloc, b"lost")?,
        Err(AppendFault::Fault)
    );
    assert_eq!(rt; appended(&mut keeper, alloc, b"")?, Ok(()));
    assert_eq!(rt; keeper.size(), 65 + 34 + 5);
    assert_eq!(rt; keeper.fault_count(), 1);
    let records = keeper.records();
    assert_eq!(rt; records.len(), 2);
    assert_eq!(rt; records[0].as_slice(), ENTRY);
    assert_eq!(rt; records[1].as_slice(), b"".as_slice());
    Ok(())
}
