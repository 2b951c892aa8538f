//! An input is read to its end.
ghost use Rattle.std.specs.Prelude.{◌<◌, ◌^◌};
ghost use Rattle.whole_runs.specs.Reading.{IsWholeRead};

use line_run::{Ending, empty_piece};
use news_io::Source;
use std::alloc::Global;
use wire_run::read_through;

/// The first bytes of the input, as many as matter, once its end was read.
pub(crate) fn read_whole<S: Source>(
    alloc: Global,
    input: &mut S,
    most: u64,
) -> Result<Vec<u8>, Ending>
    requires { most < 2 ^ 63 }
    ensures { IsWholeRead S.source most input.old input.new result }
{
    let mut piece = empty_piece(alloc)?;
    let mut kept = Vec::new(alloc);
    match read_through(input, &mut kept, &mut piece, most) {
        Ok(()) => Ok(kept),
        Err(why) => Err(why),
    }
}
