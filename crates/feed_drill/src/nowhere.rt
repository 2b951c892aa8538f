//! An output that nobody reads.
ghost use Rattle.std.specs.Prelude.{◌≡◌, IfOk};

use news_io::{Failed, Sink};

/// It takes all bytes, and keeps none.
#[derive(Drop)]
pub(crate) struct Nowhere;

impl Sink for Nowhere {
    ghost use Rattle.feed_drill.specs.Nowhere.{nowhere};

    ghost sink = { nowhere };

    fn write(&mut self, from: &[u8]) -> Result<usize, Failed> {
        Ok(from.len())
    }

    fn flush(&mut self) -> Result<(), Failed> {
        Ok(())
    }
}
