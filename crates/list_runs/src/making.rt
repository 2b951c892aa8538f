//! The entry that made a publication, and the newsroom behind which it stands.
ghost use Rattle.std.specs.Prelude.{◌≡◌, ◌<◌, length, All, IfOk};
ghost use Rattle.news_types.specs.History.{History};
ghost use Rattle.newsroom.specs.Stands.{Stands};
ghost use Rattle.list_runs.specs.Lists.{AreOf};
ghost use Rattle.list_runs.specs.Making.{IsMaking, MakesAt};

use entry_codec::decode;
use news_io::Record;
use news_room::Replay;
use news_types::{Entry, Memory};
use std::alloc::Global;
use uuid::Uuid;

/// The newsroom behind which a publication was made, and the entry that made it.
#[derive(Drop)]
pub(crate) struct Making {
    pub(crate) replay: Replay,
    pub(crate) entry: Entry,
}

/// How the publication of that number was made, which is one of the list of these records.
pub(crate) fn find_making(
    alloc: Global,
    store: Uuid,
    records: &[Record],
    publication: u32,
) -> Result<Making, Memory>
    requires few { length records.now < 2147483648 }
    requires places { All (λ r. r.at < 4294967296) records.now }
    requires some { 0 < publication }
    ensures stands { IfOk result (λ making. Stands making.replay.machine) }
    ensures making { IfOk result (λ making. (h : History) → AreOf records.now h → IsMaking publication h making.replay.machine making.entry) }
{
    let place = find_place(alloc, store, records, publication)?;
    let Ok(replay) = Replay::of(alloc, store, &records[..place]) else {
        return Err(Memory);
    };
    let Ok(entry) = decode(alloc, records[place].bytes.as_slice()) else {
        return Err(Memory);
    };
    Ok(Making { replay, entry })
}

/// The place, from 0, of the record whose entry made it.
fn find_place(
    alloc: Global,
    store: Uuid,
    records: &[Record],
    publication: u32,
) -> Result<usize, Memory>
    requires few { length records.now < 2147483648 }
    requires places { All (λ r. r.at < 4294967296) records.now }
    requires some { 0 < publication }
    ensures within { IfOk result (λ place. place < length records.now) }
    ensures makes { IfOk result (λ place. (h : History) → AreOf records.now h → MakesAt records.now publication h place) }
{
    let Ok(mut replay) = Replay::new(alloc, store) else {
        return Err(Memory);
    };
    for (place, here) in records.iter().enumerate() {
        let Ok(_) = replay.take(here) else {
            return Err(Memory);
        };
        if replay.newsroom().stories().publication_count() >= publication {
            return Ok(place);
        }
    }
    Err(Memory)
}
