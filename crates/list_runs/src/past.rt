//! The lines of an input are answered at a list as it was.
ghost use Rattle.std.specs.Prelude.{◌≡◌, ◌<◌, ◌≤◌, ℕ, length, map, All};
ghost use Rattle.news_types.specs.declared.entry.Entry.{Entry};
ghost use Rattle.news_types.specs.Books.{Book};
ghost use Rattle.news_types.specs.Names.{Bytes};
ghost use Rattle.desk_lines.specs.declared.asked.Asked.TheVariants as asked;
ghost use Rattle.news_types.specs.History.{History};
ghost use Rattle.news_io.specs.Faults.{Rose};
ghost use Rattle.line_run.specs.Status.{IsComplete};
ghost use Rattle.news_room.specs.Stands.{Stands, SomeBook};
ghost use Rattle.room_runs.specs.Lines.{LONGEST_INPUT};
ghost use Rattle.room_runs.specs.Texts.{IsText};
ghost use Rattle.list_runs.specs.Lists.{AreOf, first_entries};
ghost use Rattle.list_runs.specs.Life.{PastAnswered, untold};
ghost use Rattle.list_runs.specs.Past.{asked_bytes};

use desk_lines::{Asked, LineFault, LineProperty, read_line};
use line_run::{Answering, Stopped, run_lines};
use news_io::{Keeper, Record, Sink, Source};
use news_room::Room;
use news_types::Query;
use room_runs::{bad_line, can_tell, desk_told, question_told};
use run_status::{Status, tell_status};
use std::alloc::Global;
use uuid::Uuid;

/// The longest line that is read, in bytes without its end.
const LONGEST_LINE: u32 = 4194304;

/// The most bytes of an input that are answered.
const LONGEST_INPUT: u64 = 4294967296;

/// Answers the lines of the input at the list of the first entries of these records, so many, or of all where there are fewer,
/// and gives the status and the keeper as it was.
///
/// Only questions are answered: nothing is kept, no clock is read, and nothing is released. Any other line is a bad line. Where
/// there is no memory for the list the status is 9, and nothing was read.
pub fn answer_past<S: Source, O: Sink, K: Keeper>(
    alloc: Global,
    input: &mut S,
    output: &mut O,
    keeper: K,
    store: Uuid,
    records: &[Record],
    entries: u64,
) -> (u8, K)
    requires few { length records.now < 2147483648 }
    requires places { All (λ r. r.at < 4294967296) records.now }
    ensures answered { (h : History) → AreOf records.now h
        → PastAnswered K.keeper S.source O.sink (first_entries entries h) input.old input.new output.old output.new result.0 }
    ensures keeper { result.1 ≡ keeper }
    ensures complete { S.source.tells input.old → length (S.source.ahead input.old) ≤ LONGEST_INPUT → (Rose (S.source.faults input.old) (S.source.faults input.new) → ⊥)
        → (Rose (O.sink.faults output.old) (O.sink.faults output.new) → ⊥) → IsComplete result.0 }
{
    let most = records.len().min(entries as usize);
    match Room::open(alloc, keeper, store, &records[..most]) {
        Ok(room) => {
            let status = answer_at(alloc, input, output, &room);
            (status, room.into_keeper())
        }
        Err((keeper, _)) => (tell_status(output, Status::Memory), keeper),
    }
}

/// Answers the lines of the input at the list of a room, and gives the status.
fn answer_at<S: Source, O: Sink, K: Keeper>(
    alloc: Global,
    input: &mut S,
    output: &mut O,
    room: &Room<K>,
) -> u8
    requires stands { (store : Bytes) × ((h : History) × Stands K.keeper room.now (untold store h)) }
    ensures answered { (store : Bytes) (h : History) → Stands K.keeper room.now (untold store h)
        → PastAnswered K.keeper S.source O.sink h input.old input.new output.old output.new result }
    ensures complete { S.source.tells input.old → length (S.source.ahead input.old) ≤ LONGEST_INPUT → (Rose (S.source.faults input.old) (S.source.faults input.new) → ⊥)
        → (Rose (O.sink.faults output.old) (O.sink.faults output.new) → ⊥) → IsComplete result }
{
    let mut desk = PastDesk { alloc, room };
    run_lines(alloc, input, output, &mut desk, LONGEST_LINE, LONGEST_INPUT)
}

/// A room that is only asked.
#[derive(Drop)]
pub(crate) struct PastDesk<'a, K> {
    pub(crate) alloc: Global,
    pub(crate) room: &'a Room<K>,
}

impl<K: Keeper> Answering for PastDesk<'_, K> {
    ghost use Rattle.list_runs.specs.Life.{past_life};
    ghost use Rattle.list_runs.specs.Past.{of_past};

    ghost Entry = { Entry };

    ghost Found = { Unit {0} };

    ghost Shelf = { Unit {0} };

    ghost faults = { λ d. 0 };

    ghost life = { λ s. past_life K.keeper };

    ghost meaning = { λ s. of_past };

    fn answer(&mut self, line: Option<&[u8]>) -> Result<Vec<u8>, Stopped> {
        let Some(bytes) = line else {
            return bad_line(self.alloc, LineProperty::Line);
        };
        match read_line(self.alloc, bytes) {
            Ok(asked) => answer_asked(self.alloc, self.room, asked),
            Err(LineFault::Bad { property }) => bad_line(self.alloc, property),
            Err(LineFault::Memory) => Err(Stopped::Memory),
        }
    }
}

/// Answers what a line asks for, where that is a question.
fn answer_asked<K: Keeper>(alloc: Global, room: &Room<K>, asked: Asked) -> Result<Vec<u8>, Stopped>
    requires { SomeBook K.keeper room.now }
    ensures { (b : Book) → Stands K.keeper room.now b → IsText (asked_bytes b.list asked) result }
{
    match asked {
        Asked::Query(query) => answer_query(alloc, room, &query),
        Asked::Desk(question) => desk_told(alloc, room, &question),
        Asked::Request { command, .. } => {
            drop(command);
            bad_line(alloc, LineProperty::Ask)
        }
        Asked::Receipt { .. } | Asked::Archive { .. } => bad_line(alloc, LineProperty::Ask),
    }
}

/// Answers a question that a line may ask.
fn answer_query<K: Keeper>(alloc: Global, room: &Room<K>, query: &Query) -> Result<Vec<u8>, Stopped>
    requires { SomeBook K.keeper room.now }
    ensures { (b : Book) → Stands K.keeper room.now b → IsText (asked_bytes b.list (asked.Query query.now)) result }
{
    if can_tell(query) {
        return question_told(alloc, room, query);
    }
    bad_line(alloc, LineProperty::Ask)
}
