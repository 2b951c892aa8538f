//! The command that ships the records of a store.
ghost use Rattle.std.specs.Prelude.{◌≡◌, ◌≤◌, ◌+◌, length, IsTrue, List, ℕ};
ghost use Rattle.news_types.specs.Names.{Bytes, is_in};
ghost use Rattle.news_types.specs.History.{History};
ghost use Rattle.store_files.specs.Store.{Opens};
ghost use Rattle.standby_files.specs.Shipping.{word_line as line_of_word, TellsShip, IsShip};
ghost use Rattle.standby_files.specs.Telling.{IsTold, IsServed};

use crate::listing::{Listed, open_list};
use crate::telling::{tell_line, tell_trouble};
use byte_formats::SmallBytes;
use news_io::{Disk, Keeper, Link, Sink};
use news_types::Name;
use room_standby::{Ship, ship};
use run_status::Status;
use std::alloc::Global;
use store_files::Trouble;

/// A word and a number, as a line.
fn word_line(word: &[u8], number: u64) -> SmallBytes<40>
    requires { length word.now ≤ 16 }
    ensures { result ≡ line_of_word word.now number }
{
    let mut line: SmallBytes<40> = SmallBytes::new();
    line.push_slice(word);
    line.push_decimal(number);
    line.push_slice(b"\n");
    line
}

/// Tells a word and a number, and then this status.
fn tell_word<O: Sink>(output: &mut O, word: &[u8], number: u64, status: Status) -> u8
    requires { length word.now ≤ 16 }
    ensures { IsTold O.sink (line_of_word word.now number) status output.old output.new result }
{
    tell_line(output, word_line(word, number).as_slice(), status)
}

/// Tells what shipping came to, and gives the status.
fn tell_ship<O: Sink>(output: &mut O, answer: Ship) -> u8
    ensures { TellsShip O.sink answer output.old output.new result }
{
    match answer {
        Ship::Level { count } => tell_word(output, b"level ", count, Status::Done),
        Ship::LinkFault { n } => tell_word(output, b"link-fault ", n, Status::Link),
        Ship::NoKept { n, .. } => tell_word(output, b"no-kept ", n, Status::NoReceipt),
        Ship::Memory => tell_trouble(output, Trouble::Memory),
    }
}

/// Opens a store, and ships the records of its list over one link to the standby of this name, until that has them all. It
/// keeps no entry. It gives the status, and the files back.
///
/// What it writes is `level` and how many records the standby has; or `link-fault` or `no-kept` and the number of the record
/// at which the link failed or the reply was none, and then the line of status 10 or 11.
#[tactic(none)]
pub fn ship_store<O: Sink, D: Disk, L: Link>(
    alloc: Global,
    name: &Name,
    output: &mut O,
    log: D,
    side: D,
    link: &mut L,
) -> (u8, D, D)
    requires served { IsTrue (is_in name.now (L.link.serves link.old)) }
    ensures ships { IsShip D.disk O.sink L.link name.now log result.1 side result.2 output.old output.new link.old link.new result.0 }
    // Files that open to a list are never told to be another's or damaged, and a failed disk is told only where one has failed.
    ensures serves { D.disk.tells log → D.disk.tells side → (store : Bytes) (h : History) → length store ≡ 16 → Opens (D.disk.seen log) (D.disk.seen side) store h
        → IsServed (D.disk.faults log + D.disk.faults side) (D.disk.faults result.1 + D.disk.faults result.2) result.0 }
    ensures link { L.link.serves link.new ≡ L.link.serves link.old }
{
    match open_list(alloc, log, side) {
        Ok(
            Listed {
                pair,
                store: _,
                records,
            },
        ) => {
            let answer = ship(alloc, records.as_slice(), name, link);
            let (log, side) = pair.into_disks();
            (tell_ship(output, answer), log, side)
        }
        Err((log, side, trouble)) => (tell_trouble(output, trouble), log, side),
    }
}
