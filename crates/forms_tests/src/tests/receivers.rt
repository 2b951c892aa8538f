//! Tests of `feed_receiver`: receivers on keepers that fail or are full, and receipts. Rows of frames and of receivers' files are
//! lines of `desk_sessions`.

use super::given::{named, only};
use feed_receiver::{Line, Receiver, Taken, read_receipt, receipt_line};
use news_io::MemoryKeeper;
use std::alloc::Global;
use std::test::Fail;

/// The receiver `alpha` on this keeper, which holds nothing yet.
fn alpha_on(alloc: Global, keeper: MemoryKeeper) -> Result<Receiver<MemoryKeeper>, Fail> {
    match Receiver::open(alloc, keeper, named("alpha")?, &[]) {
        Ok(receiver) => Ok(receiver),
        Err(_) => Err(Fail::new("not opened")),
    }
}

fn alpha(alloc: Global) -> Result<Receiver<MemoryKeeper>, Fail> {
    alpha_on(alloc, MemoryKeeper::new(alloc))
}

/// Frames 1, 1, 3 and 2: the first and the last are kept, and each answer has its receipt.
#[test]
fn keeps_each_frame_once(rt: HostRuntime) -> Result<(), Fail> {
    let mut receiver = alpha(rt.alloc())?;
    assert_eq!(rt; receiver.count(), 0);
    let first = b"FRAME alpha 1 2\nhi";
    let taken = receiver.take(first);
    if taken == Taken::Memory || taken == Taken::Fault {
        assert_eq!(rt; receiver.count(), 0, "refused growth leaves the list");
        assert!(rt; receiver.into_keeper().records().is_empty());
        return Err(Fail::new("no memory"));
    }
    assert_eq!(rt; taken, Taken::Accepted { k: 1 });
    assert_eq!(rt; receiver.take(first), Taken::Known { count: 1 });
    assert_eq!(rt;
        receiver.receipt().as_slice(),
        b"RECEIPT alpha 1\n".as_slice()
    );
    assert_eq!(rt;
        receiver.take(b"FRAME alpha 3 0\n"),
        Taken::Ahead { count: 1 }
    );
    let second = receiver.take(b"FRAME alpha 2 0\n");
    if second == Taken::Memory || second == Taken::Fault {
        assert_eq!(rt; receiver.count(), 1, "refused growth leaves the list");
        return Err(Fail::new("no memory"));
    }
    assert_eq!(rt; second, Taken::Accepted { k: 2 });
    assert_eq!(rt;
        receiver.receipt().as_slice(),
        b"RECEIPT alpha 2\n".as_slice()
    );
    let keeper = receiver.into_keeper();
    assert_eq!(rt; keeper.records().len(), 2);
    assert_eq!(rt; keeper.records()[0].as_slice(), first.as_slice());
    assert_eq!(rt;
        keeper.records()[1].as_slice(),
        b"FRAME alpha 2 0\n".as_slice()
    );
    Ok(())
}

/// Of bytes that hold more than a frame nothing is taken.
#[test]
fn takes_single_frames(rt: HostRuntime) -> Result<(), Fail> {
    let mut receiver = alpha(rt.alloc())?;
    assert_eq!(rt; receiver.take(b""), Taken::BadFrame { at: 0 });
    assert_eq!(rt;
        receiver.take(b"FRAME alpha 1 2\nhiX"),
        Taken::BadFrame { at: 18 }
    );
    assert_eq!(rt;
        receiver.take(b"FRAME alpha 1 0\nX"),
        Taken::BadFrame { at: 16 }
    );
    assert_eq!(rt;
        receiver.take(b"FRAME alpha 2 2\nhi\n"),
        Taken::BadFrame { at: 18 }
    );
    assert_eq!(rt; receiver.take(b"FRAME beta 1 2\nhi"), Taken::NotMine);
    assert_eq!(rt; receiver.count(), 0);
    Ok(())
}

/// A record of 23 bytes is kept where it ends at the limit, and not one byte later.
#[test]
fn keeps_up_to_the_limit(rt: HostRuntime) -> Result<(), Fail> {
    let frame = b"FRAME alpha 1 2\nhi";
    let alloc = rt.alloc();
    let mut last = alpha_on(alloc, MemoryKeeper::starting_at(alloc, 1073741801))?;
    assert_eq!(rt; last.take(frame), Taken::Accepted { k: 1 });
    let mut full = alpha_on(alloc, MemoryKeeper::starting_at(alloc, 1073741802))?;
    let answer = Taken::Full {
        size: 1073741802,
        length: 18,
    };
    assert_eq!(rt; full.take(frame), answer);
    assert_eq!(rt; full.take(frame), answer, "it stays full");
    assert_eq!(rt; full.count(), 0);
    let keeper = full.into_keeper();
    assert!(rt; keeper.records().is_empty());
    assert_eq!(rt; keeper.call_count(), 0);
    Ok(())
}

/// A keeper that fails once keeps the frame when it comes again.
#[test]
fn a_fault_leaves_the_list(rt: HostRuntime) -> Result<(), Fail> {
    let alloc = rt.alloc();
    let mut receiver = alpha_on(alloc, MemoryKeeper::new(alloc).failing_at(only(alloc, 2)?))?;
    assert_eq!(rt;
        receiver.take(b"FRAME alpha 1 1\na"),
        Taken::Accepted { k: 1 }
    );
    assert_eq!(rt; receiver.take(b"FRAME alpha 2 1\nb"), Taken::Fault);
    assert_eq!(rt; receiver.count(), 1);
    assert_eq!(rt;
        receiver.take(b"FRAME alpha 3 1\nc"),
        Taken::Ahead { count: 1 }
    );
    assert_eq!(rt;
        receiver.take(b"FRAME alpha 2 1\nb"),
        Taken::Accepted { k: 2 }
    );
    let keeper = receiver.into_keeper();
    assert_eq!(rt; keeper.fault_count(), 1);
    assert_eq!(rt; keeper.records().len(), 2);
    Ok(())
}

/// Receipt lines, and lines that are none.
#[test]
fn reads_receipts(rt: HostRuntime) -> Result<(), Fail> {
    let alpha = named("alpha")?;
    let rows: [(&[u8], u32); 3] = [
        (b"RECEIPT alpha 0\n", 0),
        (b"RECEIPT alpha 10\n", 10),
        (b"RECEIPT alpha 4294967295\n", 4294967295),
    ];
    for (line, n) in rows {
        assert!(rt; read_receipt(line) == Some((alpha, n)));
        assert_eq!(rt; receipt_line(&alpha, n).as_slice(), line);
    }
    let others: [&[u8]; 17] = [
        b"RECEIPT alpha 00\n",
        b"RECEIPT alpha 01\n",
        b"RECEIPT alpha 4294967296\n",
        b"RECEIPT alpha 1",
        b"RECEIPT alpha 1\n\n",
        b"RECEIPT alpha 1\r\n",
        b"RECEIPT alpha 1 \n",
        b"RECEIPT  alpha 1\n",
        b"RECEIPT alpha  1\n",
        b"RECEIPT Alpha 1\n",
        b"receipt alpha 1\n",
        b"RECEIPT alpha -1\n",
        b"RECEIPT alpha \n",
        b"RECEIPT alpha\n",
        b"RECEIPT  1\n",
        b"RECEIPT aaaaaaaaaaaaaaaaaaaaaaaaaaaaaaaaa 1\n",
        b"FRAME alpha 1 2\nhi",
    ];
    for line in others {
        assert!(rt; read_receipt(line).is_none(), "at {line:?}");
    }
    let whole = b"RECEIPT alpha 10\n";
    for n in 0..whole.len() {
        assert!(rt; read_receipt(&whole[..n]).is_none(), "at {n}");
    }
    let longest = receipt_line(&named("aaaaaaaaaaaaaaaaaaaaaaaaaaaaaaaa")?, 4294967295);
    assert_eq!(rt; longest.as_slice().len(), 52);
    assert_eq!(rt; Line::of(b"no").as_slice(), b"no".as_slice());
    Ok(())
}
