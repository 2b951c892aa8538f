//! Reading the header of a room's log.
ghost use Rattle.std.specs.Prelude.{◌≡◌, ◌≤◌, ◌<◌, ◌^◌, length, take, drop};
ghost use Rattle.news_pair.specs.Pair.{six};
ghost use Rattle.news_pair.specs.Opened.{RoomHeadAs};

use crate::PairFault;
use news_journal::{Header, read_header};
use uuid::Uuid;

/// The header of a room's log.
#[derive(Drop)]
pub struct RoomHead {
    pub bytes: [u8; 64],
    pub store: Uuid,
    /// How many entries of the list stand before the log's first record.
    pub base: u64,
}

/// The base in a room's header.
fn base_in(head: &[u8; 64]) -> u64
    ensures bytes { six result ≡ take 6 (drop 10 head.now) }
    ensures small { result < 2 ^ 48 }
{
    u64::from_be_bytes([
        0, 0, head[10], head[11], head[12], head[13], head[14], head[15],
    ])
}

/// Reads the header of a room's log, which has 64 bytes; these are at most as many.
pub fn read_room_header(bytes: &[u8]) -> Result<RoomHead, PairFault>
    requires { length bytes.now ≤ 64 }
    ensures { RoomHeadAs bytes.now result }
{
    let (bytes, header) = read_header(bytes)?;
    let Header::Room { store } = header else {
        return Err(PairFault::Damaged {
            at: 9,
            found: Some(bytes[9]),
        });
    };
    Ok(RoomHead {
        bytes,
        store,
        base: base_in(&bytes),
    })
}
