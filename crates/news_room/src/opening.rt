//! A room is opened from the records of its keeper.
ghost use Rattle.std.specs.Prelude.{◌≡◌, ◌<◌, length, All};
ghost use Rattle.news_room.specs.Opening.{Opened};

use crate::answers::RoomFault;
use crate::replay::Replay;
use crate::room::Room;
use news_io::{Keeper, Record};
use std::alloc::Global;
use uuid::Uuid;

impl<K: Keeper> Room<K> {
    /// Opens a room of this store over a keeper whose records these are, in order, each with its place in the log or in
    /// the side.
    ///
    /// The keeper comes back beside a fault. Damage is told of the first record that is no entry, or whose entry may not
    /// follow those before it, and in the file that this record is of.
    pub fn open(
        alloc: Global,
        keeper: K,
        store: Uuid,
        records: &[Record],
    ) -> Result<Room<K>, (K, RoomFault)>
        requires few { length records.now < 2147483648 }
        requires places { All (λ r. r.at < 4294967296) records.now }
        ensures { Opened K.keeper keeper store records.now result }
    {
        match Replay::of(alloc, store, records) {
            Ok(replay) => {
                let Replay { alloc, machine } = replay;
                Ok(Room {
                    alloc,
                    keeper,
                    machine,
                })
            }
            Err(fault) => Err((keeper, fault)),
        }
    }
}
