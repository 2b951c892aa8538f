//! The records of a table are gone through, one after another, by a room.
ghost use Rattle.std.specs.Prelude.{◌≡◌, [], List, IfOk, Some, false};
ghost use Rattle.news_types.specs.declared.entry.Entry.{Entry};
ghost use Rattle.news_types.specs.Books.{Book};
ghost use Rattle.news_types.specs.Products.{is_subscriber};
ghost use Rattle.csv.specs.Records.{fields_of};
ghost use Rattle.news_room.specs.Stands.{Stands, SomeBook, numbers};
ghost use Rattle.news_room.specs.Steps.{After};
ghost use Rattle.subscriber_import.specs.Fields.{command_of, wanted_of};
ghost use Rattle.subscriber_import.specs.Seen.{seen, FitsWanted};
ghost use Rattle.subscriber_import.specs.Steps.{next_of, RowStep, NumberStep, is_stop_fault, line_of, expected_in, expected_of};

use crate::line::Line;
use crate::wanted::{Wanted, read_record};
use csv::ByteRecord;
use news_io::Keeper;
use news_room::{Handled, Room};
use news_types::{Answer, Command, Denial, Memory, Name, Query};
use std::alloc::Global;

/// Why a record was not gone through.
#[derive(Drop)]
pub(crate) enum Stop {
    /// The keeper has failed.
    Fault,
    /// Its entry would pass the limit.
    Full { size: u64, length: u64 },
    /// There was no memory.
    Memory,
}

/// Goes through a record: a subscriber that is of its form and is not there is asked for.
pub(crate) fn import_row<K: Keeper>(
    alloc: Global,
    room: &mut Room<K>,
    now: u64,
    caller: Name,
    row: &ByteRecord,
) -> Result<Line, Stop>
    requires { SomeBook K.keeper room.old }
    ensures { (more : List Entry) × ((b : Book) → Stands K.keeper room.old b
        → After K.keeper room.old room.new b (next_of b.list caller now (wanted_of (fields_of row.now))) more (is_stop_fault result)
        (RowStep (numbers K.keeper room.old room.new) b.list caller now (wanted_of (fields_of row.now)) more result)) }
{
    match read_record(alloc, row) {
        Ok(Some(wanted)) => add_wanted(room, now, caller, wanted),
        Ok(None) => Ok(Line::Bad),
        Err(Memory) => Err(Stop::Memory),
    }
}

/// Adds a subscriber, unless it is there.
fn add_wanted<K: Keeper>(
    room: &mut Room<K>,
    now: u64,
    caller: Name,
    wanted: Wanted,
) -> Result<Line, Stop>
    requires stands { SomeBook K.keeper room.old }
    requires fits { FitsWanted wanted }
    ensures { (more : List Entry) × ((b : Book) → Stands K.keeper room.old b
        → After K.keeper room.old room.new b (next_of b.list caller now (Some (seen wanted))) more (is_stop_fault result)
        (RowStep (numbers K.keeper room.old room.new) b.list caller now (Some (seen wanted)) more result)) }
{
    match is_there(room, wanted.subscriber) {
        Ok(there) => {
            if there {
                drop(wanted);
                return Ok(Line::There);
            }
            ask_for(room, now, caller, wanted)
        }
        Err(Memory) => Err(Stop::Memory),
    }
}

/// Whether a subscriber is there.
fn is_there<K: Keeper>(room: &Room<K>, subscriber: Name) -> Result<bool, Memory>
    requires { SomeBook K.keeper room.now }
    ensures { IfOk result (λ there. (b : Book) → Stands K.keeper room.now b → there ≡ is_subscriber b.list subscriber) }
{
    let answer = room.ask(&Query::Feed {
        subscriber,
        after: u32::MAX,
    })?;
    match answer {
        Answer::Feed { .. } => Ok(true),
        _ => Ok(false),
    }
}

/// Asks for a subscriber that is not there, under the caller's next number.
fn ask_for<K: Keeper>(
    room: &mut Room<K>,
    now: u64,
    caller: Name,
    wanted: Wanted,
) -> Result<Line, Stop>
    requires stands { SomeBook K.keeper room.old }
    requires fits { FitsWanted wanted }
    ensures { (more : List Entry) × ((b : Book) → Stands K.keeper room.old b → is_subscriber b.list wanted.subscriber ≡ false
        → After K.keeper room.old room.new b (next_of b.list caller now (Some (seen wanted))) more (is_stop_fault result)
        (RowStep (numbers K.keeper room.old room.new) b.list caller now (Some (seen wanted)) more result)) }
{
    match next_number(room, now, caller) {
        Some(number) => told(room.request(now, caller, number, add_command(wanted))),
        None => {
            drop(wanted);
            Err(Stop::Memory)
        }
    }
}

/// The command that adds a subscriber.
fn add_command(wanted: Wanted) -> Command
    ensures { result ≡ command_of (seen wanted) }
{
    let Wanted {
        subscriber,
        format,
        products,
        lag,
    } = wanted;
    Command::AddSubscriber {
        subscriber,
        format,
        products,
        lag,
    }
}

/// The caller's next number, as the denial of a request with number 0 has it; nothing where there was no memory for that.
/// Such a request is always out of turn.
fn next_number<K: Keeper>(room: &mut Room<K>, now: u64, caller: Name) -> Option<u64>
    requires { SomeBook K.keeper room.old }
    ensures { (b : Book) → Stands K.keeper room.old b
        → After K.keeper room.old room.new b [] [] false (NumberStep (numbers K.keeper room.old room.new) b.list caller result) }
{
    let answered = room.request(now, caller, 0, Command::Stop);
    match expected(answered) {
        Some(number) => number,
        None => unreachable!(),
    }
}

/// The number that such an answer has, and nothing where there was no memory.
fn expected(answered: Handled) -> Option<Option<u64>>
    ensures { result ≡ expected_in answered }
{
    match answered {
        Handled::Denied(denial) => expected_by(denial),
        Handled::Memory => Some(None),
        Handled::Done(_) | Handled::Repeat(_) | Handled::Fault | Handled::Full { .. } => None,
    }
}

fn expected_by(denial: Denial) -> Option<Option<u64>>
    ensures { result ≡ expected_of denial }
{
    match denial {
        Denial::OutOfTurn { expected } => Some(Some(expected)),
        _ => None,
    }
}

/// What became of a request for a subscriber.
fn told(handled: Handled) -> Result<Line, Stop>
    ensures { result ≡ line_of handled }
{
    match handled {
        Handled::Done(_) | Handled::Repeat(_) => Ok(Line::Added),
        Handled::Denied(denial) => Ok(Line::Denied(denial)),
        Handled::Fault => Err(Stop::Fault),
        Handled::Full { size, length } => Err(Stop::Full { size, length }),
        Handled::Memory => Err(Stop::Memory),
    }
}
