//! A standby is promoted to a room.

ghost use Rattle.news_types.specs.Legal.{IsLegal};
ghost use Rattle.news_room.specs.Opening.{Opened};
ghost use Rattle.room_standby.specs.Holds.{Followed, Holds};
ghost use Rattle.room_standby.specs.Promotes.{FollowerPromoted, Promoted};

use crate::standby::Standby;
use news_io::Keeper;
use news_room::{Room, RoomFault};
use uuid::Uuid;

impl<K: Keeper> Standby<K> {
    /// The room of this store over the records that the standby has. The keeper comes back beside a fault.
    ///
    /// The primary must accept nothing more. Damage is told only where the records are not those of a legal list, which
    /// records that were shipped always are.
    pub fn promote(self, store: Uuid) -> Result<Room<K>, (K, RoomFault)>
        requires holds { (b : Followed) × Holds K.keeper self b }
        ensures opened { Opened K.keeper self.keeper store self.records.items result }
        ensures stands { (b : Followed) → Holds K.keeper self b → IsLegal b.standby.list
            → Promoted K.keeper store self b result }
        // A standby that followed a primary is a room that stands for its list, or memory was wanting.
        ensures follows { (b : Followed) → Holds K.keeper self b → FollowerPromoted K.keeper store self b result }
    {
        let Standby {
            alloc,
            keeper,
            records,
        } = self;
        Room::open(alloc, keeper, store, records.as_slice())
    }
}
