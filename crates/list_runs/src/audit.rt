//! Each entry of a list is told as a line.
ghost use Rattle.std.specs.Prelude.{◌≡◌, ◌<◌, ◌++◌, ◌∷◌, [], length, map, All, IfOk};
ghost use Rattle.news_types.specs.History.{History};
ghost use Rattle.entry_codec.specs.Formed.{IsEntry};
ghost use Rattle.entry_codec.specs.Spelling.{entry_bytes};
ghost use Rattle.newsroom.specs.Stands.{StandsFor};
ghost use Rattle.news_room.specs.Log.{IsStored};
ghost use Rattle.room_reports.specs.Written.{IsWrittenOut};
ghost use Rattle.told_entries.specs.Entries.{audit, entry_line};
ghost use Rattle.list_runs.specs.Lists.{AreOf};
ghost use Rattle.list_runs.specs.Output.{Gives, GivesOnce};
ghost use Rattle.list_runs.specs.Audits.{TellsOne};

use crate::output::{end, write_lines};
use entry_codec::decode;
use news_io::{Record, Sink};
use news_room::Replay;
use news_types::{Bytes, Entry, Memory, Reply};
use run_status::Status;
use std::alloc::Global;
use told_entries::tell_entry;
use uuid::Uuid;

/// Writes a line for each entry of the list of these records that stands behind the first so many, oldest first, and gives the
/// status.
///
/// It is 0 where all lines were written and have passed on, 5 where the output failed, and 9 where there was no memory, behind
/// the lines that were written until then. There is memory for one entry at a time, beside a newsroom.
pub fn tell_list<O: Sink>(
    alloc: Global,
    output: &mut O,
    store: Uuid,
    records: &[Record],
    after: u64,
) -> u8
    requires few { length records.now < 2147483648 }
    requires places { All (λ r. r.at < 4294967296) records.now }
    ensures { (h : History) → AreOf records.now h → IsWrittenOut O.sink (audit after h) output.old output.new result }
{
    let written = write_list(alloc, output, store, records, after);
    end(output, written)
}

/// Writes the lines of the entries behind the first so many.
fn write_list<O: Sink>(
    alloc: Global,
    output: &mut O,
    store: Uuid,
    records: &[Record],
    after: u64,
) -> Result<(), Status>
    requires few { length records.now < 2147483648 }
    requires places { All (λ r. r.at < 4294967296) records.now }
    ensures { (h : History) → AreOf records.now h → Gives O.sink (audit after h) output.old output.new result }
{
    let Ok(mut replay) = Replay::new(alloc, store) else {
        return Err(Status::Memory);
    };
    for here in records {
        tell_record(alloc, output, &mut replay, here, after)?;
    }
    Ok(())
}

/// Takes one more record, and writes the line of its entry.
fn tell_record<O: Sink>(
    alloc: Global,
    output: &mut O,
    replay: &mut Replay,
    here: &Record,
    after: u64,
) -> Result<(), Status>
    requires stands { (h : History) × (StandsFor replay.old.machine h × (length h < 2147483648)) }
    ensures { (h : History) → StandsFor replay.old.machine h → IsStored h → TellsOne O.sink after replay.new.machine h here.now output.old output.new result }
{
    match decode(alloc, here.bytes.as_slice()) {
        Ok(entry) => {
            let told = tell_kept(alloc, output, replay, here, &entry, after);
            drop(entry);
            told
        }
        Err(_) => Err(Status::Memory),
    }
}

/// Takes the entry of one more record, and writes its line.
fn tell_kept<O: Sink>(
    alloc: Global,
    output: &mut O,
    replay: &mut Replay,
    here: &Record,
    entry: &Entry,
    after: u64,
) -> Result<(), Status>
    requires stands { (h : History) × (StandsFor replay.old.machine h × (length h < 2147483648)) }
    requires entry { IsEntry entry.now }
    requires is { here.now.bytes ≡ entry_bytes entry.now }
    ensures { (h : History) → StandsFor replay.old.machine h → IsStored h → TellsOne O.sink after replay.new.machine h here.now output.old output.new result }
{
    let Ok(reply) = replay.keep(here, entry) else {
        return Err(Status::Memory);
    };
    if reply.entry <= after {
        return Ok(());
    }
    write_entry(alloc, output, entry, &reply)
}

/// Writes the line of an entry.
fn write_entry<O: Sink>(
    alloc: Global,
    output: &mut O,
    entry: &Entry,
    reply: &Reply,
) -> Result<(), Status>
    ensures { GivesOnce O.sink (entry_line reply.now.entry entry.now reply.now ++ 10 ∷ []) output.old output.new result }
{
    let Ok(line) = line_of(alloc, entry, reply) else {
        return Err(Status::Memory);
    };
    write_lines(output, line.as_slice())
}

/// The line of an entry, with its line feed.
fn line_of(alloc: Global, entry: &Entry, reply: &Reply) -> Result<Bytes, Memory>
    ensures { IfOk result (λ line. line ≡ entry_line reply.now.entry entry.now reply.now ++ 10 ∷ []) }
{
    let mut line = tell_entry(alloc, reply.entry, entry, reply)?.into_vec();
    line.push(b'\n')?;
    Ok(Bytes::of(line))
}
