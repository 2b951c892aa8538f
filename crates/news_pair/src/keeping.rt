//! Appending to a pair: the log takes the record, and the side is left alone.
ghost use Rattle.std.specs.Prelude.{◌≡◌, ◌≤◌, ◌+◌, ◌^◌};
ghost use Rattle.news_pair.specs.Stands.{log_disk, side_disk};
ghost use Rattle.news_pair.specs.Keeper.{pair_of};

use crate::Pair;
use news_io::{AppendFault, Disk, Keeper};

impl<D: Disk> Pair<D> {
    /// Gives the disks back, the log's and the side's.
    pub fn into_disks(self) -> (D, D)
        ensures { result ≡ (log_disk self, side_disk self) }
    {
        (self.log.into_disk(), self.side)
    }
}

impl<D: Disk> Keeper for Pair<D> {
    ghost keeper = { pair_of D.disk };

    fn size(&self) -> u64 {
        self.used
    }

    fn append(&mut self, framed: &[u8], limit: u64) -> Result<(), AppendFault> {
        let length = framed.len() as u64;
        if self.used + length > limit {
            return Err(AppendFault::Full {
                size: self.used,
                length: length - 5,
            });
        }
        self.log.add(framed)?;
        self.used += length;
        Ok(())
    }
}
