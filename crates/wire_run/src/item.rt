// The whole input is one item.
ghost use Rattle.std.specs.Prelude.{◌≡◌, ◌≤◌, ◌<◌, ◌^◌, ◌++◌, [], length, take, OnOk};
ghost use Rattle.wire_run.specs.Reading.{ENOUGH, IsReadThrough};

use crate::Ingesting;
use crate::members::answer_bytes;
use line_run::{Ending, Members, read_piece};
use news_io::{Sink, Source};
use std::alloc::{AllocError, Global};

/// A byte more than an item may have: so many bytes show that it is too long.
const ENOUGH: usize = 4_194_305;

/// Puts these bytes behind those that are kept, as far as they matter.
///
/// # Errors
///
/// Want of memory.
pub fn extend_item(kept: &mut Vec<u8>, bytes: &[u8]) -> Result<(), AllocError>
    requires { length kept.old.items ≤ ENOUGH }
    ensures kept { OnOk result (kept.new.items ≡ take ENOUGH (kept.old.items ++ bytes.now)) }
    ensures few { OnOk result (length kept.new.items ≤ ENOUGH) }
{
    let room = ENOUGH - kept.len();
    let count = room.min(bytes.len());
    kept.extend_from_slice(&bytes[..count])?;
    Ok(())
}

/// Reads the input to its end, and keeps its first bytes, as many as matter.
pub fn read_through<S: Source>(
    input: &mut S,
    kept: &mut Vec<u8>,
    piece: &mut [u8],
    most: u64,
) -> Result<(), Ending>
    requires most { most < 2 ^ 63 }
    requires room { 0 < length piece.old }
    requires none { kept.old.items ≡ [] }
    ensures { IsReadThrough S.source most input.old input.new kept.new.items result }
{
    let mut left = most;
    'pieces: loop {
        let Ok(count) = read_piece(input, piece, left) else {
            return Err(Ending::Read);
        };
        if count == 0 {
            return Ok(());
        }
        if count as u64 > left {
            return Err(Ending::TooLong);
        }
        if let Err(_) = extend_item(kept, &piece[..count]) {
            return Err(Ending::Memory);
        }
        left -= count as u64;
    }
}

/// The one item that an input is, with what answers it.
#[derive(Drop)]
pub(crate) struct ItemMembers<'a, A> {
    pub(crate) alloc: Global,
    /// The first bytes of the input, as many as matter.
    pub(crate) kept: &'a mut Vec<u8>,
    pub(crate) desk: &'a mut A,
}

impl<A: Ingesting> Members for ItemMembers<'_, A> {
    ghost use Rattle.std.specs.Prelude.{refl, Result};
    ghost use Rattle.news_types.specs.declared.story.Incoming.{Incoming};
    ghost use Rattle.ninjs_text.specs.declared.fault.NinjsFault.{NinjsFault};
    ghost use Rattle.line_run.specs.Along.{Hand, along};
    ghost use Rattle.wire_run.specs.Members.{of_item, one_item, no_item};

    ghost Member = { Result Incoming NinjsFault };

    ghost Entry = { A.Entry };

    ghost Left = { A.Found };

    ghost Shelf = { Hand A.Shelf };

    ghost faults = { λ m. A.faults m.desk.now };

    ghost life = { λ s. along (A.life s.shelf) (λ m. m.desk.now) (λ m. m.desk.ghost_name ≡ s.name) };

    ghost meaning = { λ s. of_item (A.meaning s.shelf) };

    ghost decided = { λ _. no_item };

    ghost all = { λ _. one_item };

    ghost has_read = { λ m read. m.kept.now.items ≡ take ENOUGH read };

    fn answer_piece<O: Sink>(&mut self, piece: &[u8], _output: &mut O) -> Result<(), Ending> {
        if let Err(_) = extend_item(self.kept, piece) {
            return Err(Ending::Memory);
        }
        Ok(())
    }

    fn answer_end<O: Sink>(&mut self, output: &mut O) -> Result<(), Ending> {
        answer_bytes(self.alloc, self.kept.as_slice(), output, self.desk)
    }

    ghost none = { λ _. refl };
}
