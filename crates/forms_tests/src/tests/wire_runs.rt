//! Tests of `wire_run`: wires and items whose reading fails, or is cut off. Rows of wires and items are lines of `desk_sessions`.
ghost use Rattle.std.specs.Prelude.{◌≡◌, ◌<◌, ◌^◌, ◌∷◌, [], List, length, false};
ghost use Rattle.news_types.specs.declared.story.Incoming.{Incoming};

use super::given::source;
use line_run::Stopped;
use news_io::{MemorySink, MemorySource};
use news_types::Incoming;
use std::alloc::Global;
use std::test::Fail;
use wire_run::{Ingesting, run_item, run_wire};

/// The most bytes of an input.
const MOST: u64 = 4294967296;

/// A story, a fault at place 84, and a story that ends with the input.
const WIRE: &[u8] =
    b"\x16\x16\x01bas0001 3 pl 12 dpa\r\nfire\r\n\x02Caf\xe9\r\nSmoke.\r\n\x03 011200 may 24\r\n\x04\x01bas0002 4 x 1\na\n\x02A\nb\x04\x01bas0002 3 pl 12 dpa\nfire\n\x02Caf\xe9\nSmoke.\n\x03 011200 may 24\n";

const ITEM: &[u8] =
    br#"{"uri":"http://x.example/1","type":"text","pubstatus":"usable","versioncreated":"2024-05-01T10:00:00+02:00","copyrightholder":"X","renditions":{},"associations":{"main":{"uri":"http://x.example/2"}},"headline":"Fire","body_text":"Smoke."}"#;

// A desk that keeps each story, and answers with its identity.
#[derive(Drop)]
struct Desk {
    alloc: Global,
    kept: Vec<Incoming>,
}

impl Ingesting for Desk {
    ghost Entry = { Incoming };

    ghost Found = { Unit {0} };

    ghost Shelf = { Unit {0} };

    ghost faults = { λ _. 0 };

    ghost life = { λ _. record { stands = λ desk h. length h ≡ length desk.kept.items; doubts = λ _ _. ⊥; moment = λ _. 0; left_since = λ _ _ _. ⊥; opens = λ _ _. ⊥; tells = λ _. ⊥; ahead = λ _ _. 0; leaves_now = λ _ _ _ _ left. absurd left } };

    ghost meaning = { λ _ _ incoming _. record { text = incoming.identity; adds = incoming ∷ []; passes = false; took = [] } };

    fn ingest(&mut self, incoming: Incoming) -> Result<Vec<u8>, Stopped> {
        let mut text = Vec::new(self.alloc);
        if let Err(_) = text.extend_from_slice(incoming.identity.as_str().as_bytes()) {
            return Err(Stopped::Memory);
        }
        if let Err(_) = self.kept.push(incoming) {
            return Err(Stopped::Memory);
        }
        Ok(text)
    }
}

// What a run left.
#[derive(Drop)]
struct Left {
    status: u8,
    output: MemorySink,
    kept: usize,
}

fn wire(alloc: Global, mut input: MemorySource, most: u64) -> Result<Left, Fail>
    requires { most < 2 ^ 63 }
{
    let mut output = MemorySink::new(alloc);
    let mut desk = Desk {
        alloc,
        kept: Vec::new(alloc),
    };
    let status = run_wire(alloc, &mut input, &mut output, &mut desk, most);
    if status == 9 {
        return Err(Fail::new("no memory"));
    }
    Ok(Left {
        status,
        output,
        kept: desk.kept.len(),
    })
}

fn item(alloc: Global, mut input: MemorySource) -> Result<Left, Fail> {
    let mut output = MemorySink::new(alloc);
    let mut desk = Desk {
        alloc,
        kept: Vec::new(alloc),
    };
    let status = run_item(alloc, &mut input, &mut output, &mut desk, MOST);
    if status == 9 {
        return Err(Fail::new("no memory"));
    }
    Ok(Left {
        status,
        output,
        kept: desk.kept.len(),
    })
}

/// The second read fails, and the first story was decided.
#[test]
fn a_wire_that_fails(rt: HostRuntime) -> Result<(), Fail> {
    let left = wire(rt.alloc(), source(rt.alloc(), WIRE, 70, 2)?, MOST)?;
    assert_eq!(rt; left.status, 4);
    assert_eq!(rt; left.kept, 1);
    assert_eq!(rt;
        left.output.passed(),
        b"bas0001@011200 may 24\n{\"status\":4}\n".as_slice()
    );
    Ok(())
}

/// The first story ends with byte 63, and what follows is too much.
#[test]
fn a_wire_that_is_too_long(rt: HostRuntime) -> Result<(), Fail> {
    let left = wire(rt.alloc(), source(rt.alloc(), WIRE, 1000, 0)?, 63)?;
    assert_eq!(rt; left.status, 12);
    assert_eq!(rt; left.kept, 1);
    assert_eq!(rt;
        left.output.passed(),
        b"bas0001@011200 may 24\n{\"status\":12}\n".as_slice()
    );
    Ok(())
}

/// Nothing is answered before the end of the input.
#[test]
fn an_item_that_fails(rt: HostRuntime) -> Result<(), Fail> {
    let left = item(rt.alloc(), source(rt.alloc(), ITEM, 1000, 2)?)?;
    assert_eq!(rt; left.status, 4);
    assert_eq!(rt; left.kept, 0);
    assert_eq!(rt; left.output.passed(), b"{\"status\":4}\n".as_slice());
    Ok(())
}
