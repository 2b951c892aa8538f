//! The subscribers of a table are added.
ghost use Rattle.news_room.specs.Stands.{SomeBook};
ghost use Rattle.subscriber_import.specs.Report.{lines_text as text_of};
ghost use Rattle.whole_runs.specs.Importing.{IsImport, IsImportTold};
ghost use Rattle.whole_runs.specs.Output.{IsTextTold};

use crate::output::{tell_stop, tell_text};
use crate::reading::read_whole;
use news_io::{Clock, Keeper, Sink, Source};
use news_room::Room;
use news_types::{Memory, Name};
use run_status::Status;
use std::alloc::Global;
use subscriber_import::{Imported, Line, import_table, lines_text};

/// The most bytes of a table.
const LONGEST_TABLE: u64 = 4_194_304;

/// Adds the subscribers of the input's table, as requests of the caller at one reading of the clock, and gives the status.
///
/// It is 0 where a line for each record was written, 4 where the input failed, 5 where the output did, 6 where the keeper
/// did, 8 where an entry would pass the limit, 9 where there was no memory, 12 where the input is too long, and 14 where it
/// has no head. A status other than 0 and 5 is told as a line, and nothing else is.
pub fn import_input<S: Source, O: Sink, K: Keeper, C: Clock>(
    alloc: Global,
    input: &mut S,
    output: &mut O,
    room: &mut Room<K>,
    clock: &mut C,
    caller: Name,
) -> u8
    requires { SomeBook K.keeper room.old }
    ensures { IsImport K.keeper C.clock S.source O.sink caller room.old room.new clock.old clock.new input.old input.new output.old output.new result }
{
    match read_whole(alloc, input, LONGEST_TABLE) {
        Ok(table) => {
            let now = clock.now();
            let imported = import_table(alloc, room, now, caller, &table);
            tell_imported(alloc, output, imported)
        }
        Err(why) => tell_stop(output, Status::from(why)),
    }
}

/// Tells how an import ended, and gives the status.
fn tell_imported<O: Sink>(alloc: Global, output: &mut O, imported: Imported) -> u8
    ensures { IsImportTold O.sink imported output.old output.new result }
{
    match imported {
        Imported::Done(lines) => tell_lines(alloc, output, lines.as_slice()),
        Imported::BadHead => tell_stop(output, Status::BadHead),
        Imported::Fault => tell_stop(output, Status::Store),
        Imported::Full { .. } => tell_stop(output, Status::Full),
        Imported::Memory => tell_stop(output, Status::Memory),
    }
}

/// Tells what became of each record, and gives the status.
fn tell_lines<O: Sink>(alloc: Global, output: &mut O, lines: &[Line]) -> u8
    ensures { IsTextTold O.sink (text_of 1 lines.now) output.old output.new result }
{
    match lines_text(alloc, lines) {
        Ok(text) => tell_text(output, text.as_slice()),
        Err(Memory) => tell_stop(output, Status::Memory),
    }
}
