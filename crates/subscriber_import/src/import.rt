//! A table is imported.
ghost use Rattle.std.specs.Prelude.{◌≡◌, List, map, Some};
ghost use Rattle.news_types.specs.declared.entry.Entry.{Entry};
ghost use Rattle.news_types.specs.Books.{Book};
ghost use Rattle.csv.specs.Records.{fields_of};
ghost use Rattle.news_room.specs.Stands.{Stands, SomeBook, numbers};
ghost use Rattle.subscriber_import.specs.Table.{rows_of, behind_head as rows_behind};
ghost use Rattle.subscriber_import.specs.Steps.{Imports, stopped_by};
ghost use Rattle.subscriber_import.specs.Reads.{rows_in};

use crate::line::{Line, Lines};
use crate::rows::{Stop, import_row};
use crate::table::{is_head, read_table};
use csv::ByteRecord;
use news_io::Keeper;
use news_room::Room;
use news_types::{Memory, Name};
use std::alloc::Global;

/// What the import of a table came to. The last three stop at their record, and what was added before stays.
#[derive(Drop)]
pub enum Imported {
    /// All records were gone through: what became of each behind the head.
    Done(Lines),
    /// The first record is missing, or is not the head: nothing was asked for.
    BadHead,
    /// The keeper has failed, and its count of faults has risen. A crash may leave the entry that was tried behind the list.
    Fault,
    /// The entry of a record would pass the limit: it is not kept.
    Full {
        /// The bytes in use.
        size: u64,
        /// The length of the entry's payload in bytes.
        length: u64,
    },
    /// There was no memory.
    Memory,
}

/// Adds the subscribers of a table at a reading of the clock, in seconds, as requests of the caller.
///
/// The table is comma-separated values. Its first record is `subscriber`, `format`, `products`, `lag`, and each later one has
/// these fields of a subscriber: its name, `ninjs` or `7901`, the names of its products with a `;` between two, and its lag in
/// seconds, in decimal. A record that is not of this form is bad; one whose subscriber is there already is passed over; for
/// each other one a request is made, with the caller's next number.
pub fn import_table<K: Keeper>(
    alloc: Global,
    room: &mut Room<K>,
    now: u64,
    caller: Name,
    table: &[u8],
) -> Imported
    requires { SomeBook K.keeper room.old }
    ensures { (more : List Entry) × ((b : Book) → Stands K.keeper room.old b → Imports K.keeper room.old room.new b caller now (rows_behind (rows_of table.now)) more result) }
{
    let records = match read_table(alloc, table) {
        Ok(records) => records,
        Err(Memory) => return Imported::Memory,
    };
    match behind_head(records.as_slice()) {
        Some(rows) => import_rows(alloc, room, now, caller, rows),
        None => Imported::BadHead,
    }
}

/// The records behind the head, if the first of these is the head.
fn behind_head(records: &[ByteRecord]) -> Option<&[ByteRecord]>
    ensures { rows_in result ≡ rows_behind (map fields_of records.now) }
{
    match records {
        [head, rows @ ..] => { if is_head(head) { Some(rows) } else { None } }
        [] => None,
    }
}

/// Goes through the records behind the head.
fn import_rows<K: Keeper>(
    alloc: Global,
    room: &mut Room<K>,
    now: u64,
    caller: Name,
    rows: &[ByteRecord],
) -> Imported
    requires { SomeBook K.keeper room.old }
    ensures { (more : List Entry) × ((b : Book) → Stands K.keeper room.old b → Imports K.keeper room.old room.new b caller now (Some (map fields_of rows.now)) more result) }
{
    let mut lines: Vec<Line> = Vec::new(alloc);
    for row in rows {
        let line = match import_row(alloc, room, now, caller, row) {
            Ok(line) => line,
            Err(stop) => return stopped(stop),
        };
        match lines.push(line) {
            Ok(()) => {}
            Err(_) => return Imported::Memory,
        }
    }
    Imported::Done(Lines::of(lines))
}

/// That a record stopped the table.
fn stopped(stop: Stop) -> Imported
    ensures { result ≡ stopped_by stop }
{
    match stop {
        Stop::Fault => Imported::Fault,
        Stop::Full { size, length } => Imported::Full { size, length },
        Stop::Memory => Imported::Memory,
    }
}
