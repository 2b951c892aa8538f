//! The records of a list are shipped to a standby.

ghost use Rattle.std.specs.Prelude.{◌≡◌, [], ◌≤◌, ◌<◌, ◌^◌, length, All, IsTrue};
ghost use Rattle.news_types.specs.Names.{is_in};
ghost use Rattle.room_standby.specs.Ships.{HasLine, LinesAreEntries, LinesAreEvents, Ships, Exchanges, ShipCounts, ExchangeCounts, IsReply};

use crate::outcome::Ship;
use feed_receiver::Line;
use news_io::{Link, Record};
use news_types::Name;
use record_lines::{read_kept, record_line};
use std::alloc::Global;

/// Ships records to the standby of this name, until it has them all.
///
/// It sends the first record, reads how many are kept, goes on with the record behind these, and ends where all are
/// kept. Where there are none, it sends nothing.
pub fn ship<L: Link>(alloc: Global, records: &[Record], name: &Name, link: &mut L) -> Ship
    requires served { IsTrue (is_in name.now (L.link.serves link.old)) }
    requires sizes { All HasLine records.now }
    requires few { length records.now < 2 ^ 48 }
    ensures ships { Ships L.link link.old link.new records.now name.now 0 result }
    // Of the records of a list, each line that is sent is that of the entry of its number,
    ensures events { LinesAreEntries records.now }
    // and where the list is the primary's, or a front of it, that of the event that sends it.
    ensures sends { LinesAreEvents records.now }
    ensures none { records.now ≡ [] → link.new ≡ link.old }
    ensures faults { ShipCounts (L.link.faults link.old) (L.link.faults link.new) result }
    ensures serves { L.link.serves link.new ≡ L.link.serves link.old }
{
    let mut kept = 0;
    'records: while kept < records.len() as u64 {
        match exchange(alloc, records, kept, name, link) {
            Ok(count) => kept = count,
            Err(answer) => return answer,
        }
    }
    Ship::Level { count: kept }
}

/// Sends the record behind so many, and gives how many the reply says are kept.
fn exchange<L: Link>(
    alloc: Global,
    records: &[Record],
    kept: u64,
    name: &Name,
    link: &mut L,
) -> Result<u64, Ship>
    requires served { IsTrue (is_in name.now (L.link.serves link.old)) }
    requires sizes { All HasLine records.now }
    requires few { length records.now < 2 ^ 48 }
    requires some { kept < length records.now }
    ensures exchanges { Exchanges L.link link.old link.new records.now name.now kept result }
    ensures faults { ExchangeCounts (L.link.faults link.old) (L.link.faults link.new) result }
    ensures serves { L.link.serves link.new ≡ L.link.serves link.old }
{
    let n = kept + 1;
    let Ok(line) = record_line(alloc, n, records[kept as usize].bytes.as_slice()) else {
        return Err(Ship::Memory);
    };
    if let Err(_) = link.send(name, line.as_slice()) {
        return Err(Ship::LinkFault { n });
    }
    let mut into = [0; 128];
    match link.receipt(name, &mut into) {
        Ok(length) => count_of(records.len() as u64, n, &into[..length]),
        Err(_) => Err(Ship::LinkFault { n }),
    }
}

/// How many records the reply to record `n` says are kept: from `n` to all of them.
fn count_of(total: u64, n: u64, reply: &[u8]) -> Result<u64, Ship>
    requires { length reply.now ≤ 128 }
    ensures { IsReply total n reply.now result }
{
    match read_kept(reply) {
        Some(count) if n <= count && count <= total => Ok(count),
        _ => Err(Ship::NoKept {
            n,
            reply: Line::of(reply),
        }),
    }
}
