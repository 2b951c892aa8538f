//! What answers the lines of a batch.
ghost use Rattle.std.specs.Prelude.{◌≡◌, ℕ, IfOk, IsTrue, List, Option};
ghost use Rattle.news_types.specs.declared.entry.Entry.{Entry};
ghost use Rattle.news_types.specs.History.{History};
ghost use Rattle.news_types.specs.Names.{Bytes};
ghost use Rattle.line_run.specs.Step.{IsStep, StepCounts};
ghost use Rattle.desk_lines.specs.declared.asked.Asked.TheVariants as asked;
ghost use Rattle.desk_answers.specs.Answers.{answer_bytes};
ghost use Rattle.news_types.specs.Answers.{query_answer};
ghost use Rattle.news_types.specs.Books.{Book};
ghost use Rattle.news_room.specs.Stands.{Stands, SomeBook};
ghost use Rattle.room_runs.specs.Lines.{archive_bytes, desk_bytes, has_answer, no_frames};
ghost use Rattle.room_runs.specs.Texts.{IsText};

use crate::scope::can_tell;
use crate::texts::{
    bad_line, question_answered, receipt_answered, request_answered, unknown_answered,
};
use archive_search::{Told, tell_archive};
use desk_lines::{Asked, LineFault, LineProperty, read_line};
use desk_questions::{DeskTold, answer_desk};
use desk_views::DeskQuestion;
use line_run::{Answering, Stopped};
use news_io::{Clock, Keeper};
use news_room::{Room, Ticked};
use news_types::{Command, Memory, Name, Query, Text};
use std::alloc::Global;

/// A room, with the clock that is read once for each line that the room answers.
#[derive(Drop)]
pub(crate) struct LineDesk<'a, K, C> {
    pub(crate) alloc: Global,
    pub(crate) room: &'a mut Room<K>,
    pub(crate) clock: &'a mut C,
}

impl<K: Keeper, C: Clock> LineDesk<'_, K, C> {
    ghost use Rattle.news_types.specs.FitsCommands.{FitsCommand};
    ghost use Rattle.room_runs.specs.Lines.{of_asked};
    ghost use Rattle.room_runs.specs.Desk.{Shelf, StandsAt, line_hand};
    ghost use Rattle.room_runs.specs.Life.{life};

    // Takes a request to the room, and writes the answer.
    fn request(&mut self, caller: Name, number: u64, command: Command) -> Result<Vec<u8>, Stopped>
        requires stands { (s : Shelf) × ((h : History) × StandsAt K.keeper s (line_hand self.old) h) }
        requires fits { FitsCommand command }
        ensures step { (s : Shelf) (h : History) → StandsAt K.keeper s (line_hand self.old) h
            → IsStep (of_asked s.before) (life K.keeper C.clock line_hand s) self.old self.new h (asked.Request caller number command) result }
        ensures count { StepCounts (K.keeper.faults self.old.room.now.keeper) (K.keeper.faults self.new.room.now.keeper) result }
    {
        let now = self.clock.now();
        let answered = self.room.request(now, caller, number, command);
        request_answered(self.alloc, &answered)
    }

    // Releases what waits, and then takes a question to the room and writes the answer.
    fn ask(&mut self, query: &Query) -> Result<Vec<u8>, Stopped>
        requires stands { (s : Shelf) × ((h : History) × StandsAt K.keeper s (line_hand self.old) h) }
        requires asks { IsTrue (has_answer query.now) }
        ensures step { (s : Shelf) (h : History) → StandsAt K.keeper s (line_hand self.old) h
            → IsStep (of_asked s.before) (life K.keeper C.clock line_hand s) self.old self.new h (asked.Query query.now) result }
        ensures count { StepCounts (K.keeper.faults self.old.room.now.keeper) (K.keeper.faults self.new.room.now.keeper) result }
    {
        let now = self.clock.now();
        match self.room.tick(now) {
            Ticked::Kept { .. } | Ticked::Still => question_told(self.alloc, self.room, query),
            Ticked::Fault => Err(Stopped::Fault),
            Ticked::Full { .. } => Err(Stopped::Full),
        }
    }

    // Releases what waits, and then searches the archive and writes the answer.
    fn search(&mut self, page: u32, query: &Text) -> Result<Vec<u8>, Stopped>
        requires stands { (s : Shelf) × ((h : History) × StandsAt K.keeper s (line_hand self.old) h) }
        ensures step { (s : Shelf) (h : History) → StandsAt K.keeper s (line_hand self.old) h
            → IsStep (of_asked s.before) (life K.keeper C.clock line_hand s) self.old self.new h (asked.Archive page query.now) result }
        ensures count { StepCounts (K.keeper.faults self.old.room.now.keeper) (K.keeper.faults self.new.room.now.keeper) result }
    {
        let now = self.clock.now();
        match self.room.tick(now) {
            Ticked::Kept { .. } | Ticked::Still => found(self.alloc, self.room, page, query),
            Ticked::Fault => Err(Stopped::Fault),
            Ticked::Full { .. } => Err(Stopped::Full),
        }
    }

    // Releases what waits, and then answers a question of a desk.
    fn ask_desk(&mut self, question: &DeskQuestion) -> Result<Vec<u8>, Stopped>
        requires stands { (s : Shelf) × ((h : History) × StandsAt K.keeper s (line_hand self.old) h) }
        ensures step { (s : Shelf) (h : History) → StandsAt K.keeper s (line_hand self.old) h
            → IsStep (of_asked s.before) (life K.keeper C.clock line_hand s) self.old self.new h (asked.Desk question.now) result }
        ensures count { StepCounts (K.keeper.faults self.old.room.now.keeper) (K.keeper.faults self.new.room.now.keeper) result }
    {
        let now = self.clock.now();
        match self.room.tick(now) {
            Ticked::Kept { .. } | Ticked::Still => desk_told(self.alloc, self.room, question),
            Ticked::Fault => Err(Stopped::Fault),
            Ticked::Full { .. } => Err(Stopped::Full),
        }
    }

    // Takes a receipt to the room, and writes the answer.
    fn receipt(&mut self, subscriber: Name, n: u32) -> Result<Vec<u8>, Stopped>
        requires stands { (s : Shelf) × ((h : History) × StandsAt K.keeper s (line_hand self.old) h) }
        ensures step { (s : Shelf) (h : History) → StandsAt K.keeper s (line_hand self.old) h
            → IsStep (of_asked s.before) (life K.keeper C.clock line_hand s) self.old self.new h (asked.Receipt subscriber n) result }
        ensures count { StepCounts (K.keeper.faults self.old.room.now.keeper) (K.keeper.faults self.new.room.now.keeper) result }
    {
        let now = self.clock.now();
        let kept = self.room.receipt(now, subscriber, n);
        receipt_answered(self.alloc, &kept)
    }
}

/// What a query finds in the archive of a room's list as it is, or why it is none.
fn found<K: Keeper>(
    alloc: Global,
    room: &Room<K>,
    page: u32,
    query: &Text,
) -> Result<Vec<u8>, Stopped>
    requires { SomeBook K.keeper room.now }
    ensures { (b : Book) → Stands K.keeper room.now b → IsText (archive_bytes b.list page query.now) result }
{
    match tell_archive(alloc, room, page, query.as_str()) {
        Ok(Told::Found(text)) => Ok(text.into_vec()),
        Ok(Told::Refused(text)) => Ok(text.into_vec()),
        Err(Memory) => Err(Stopped::Memory),
    }
}

/// What a desk is told at a room's list as it is, or that a thing that it names is not there.
pub fn desk_told<K: Keeper>(
    alloc: Global,
    room: &Room<K>,
    question: &DeskQuestion,
) -> Result<Vec<u8>, Stopped>
    requires { SomeBook K.keeper room.now }
    ensures { (b : Book) → Stands K.keeper room.now b → IsText (desk_bytes b.list question.now) result }
{
    match answer_desk(alloc, room, question) {
        Ok(DeskTold::Found(text)) => Ok(text.into_vec()),
        Ok(DeskTold::Unknown(thing)) => unknown_answered(alloc, thing),
        Err(Memory) => Err(Stopped::Memory),
    }
}

/// The answer to a question at a room's list as it is.
pub fn question_told<K: Keeper>(
    alloc: Global,
    room: &Room<K>,
    query: &Query,
) -> Result<Vec<u8>, Stopped>
    requires stands { SomeBook K.keeper room.now }
    requires asks { IsTrue (has_answer query.now) }
    ensures { (b : Book) → Stands K.keeper room.now b → IsText (answer_bytes (query_answer no_frames b.list query.now)) result }
{
    match room.ask(query) {
        Ok(answer) => question_answered(alloc, &answer),
        Err(Memory) => Err(Stopped::Memory),
    }
}

impl<K: Keeper, C: Clock> LineDesk<'_, K, C> {
    ghost use Rattle.news_types.specs.FitsCommands.{FitsCommand};
    ghost use Rattle.desk_lines.specs.Lines.{FitsAsked};
    ghost use Rattle.room_runs.specs.Lines.{of_asked};
    ghost use Rattle.room_runs.specs.Desk.{Shelf, StandsAt, line_hand};
    ghost use Rattle.room_runs.specs.Life.{life};

    // Answers what a line asks for.
    fn answer_asked(&mut self, asked: Asked) -> Result<Vec<u8>, Stopped>
        requires stands { (s : Shelf) × ((h : History) × StandsAt K.keeper s (line_hand self.old) h) }
        requires fits { FitsAsked asked }
        ensures step { (s : Shelf) (h : History) → StandsAt K.keeper s (line_hand self.old) h
            → IsStep (of_asked s.before) (life K.keeper C.clock line_hand s) self.old self.new h asked result }
        ensures count { StepCounts (K.keeper.faults self.old.room.now.keeper) (K.keeper.faults self.new.room.now.keeper) result }
    {
        match asked {
            Asked::Request {
                caller,
                number,
                command,
            } => self.request(caller, number, command),
            Asked::Query(query) => self.answer_query(&query),
            Asked::Receipt { subscriber, n } => self.receipt(subscriber, n),
            Asked::Archive { page, query } => self.search(page, &query),
            Asked::Desk(question) => self.ask_desk(&question),
        }
    }

    // A question that no line may ask is a bad line.
    fn answer_query(&mut self, query: &Query) -> Result<Vec<u8>, Stopped>
        requires stands { (s : Shelf) × ((h : History) × StandsAt K.keeper s (line_hand self.old) h) }
        ensures step { (s : Shelf) (h : History) → StandsAt K.keeper s (line_hand self.old) h
            → IsStep (of_asked s.before) (life K.keeper C.clock line_hand s) self.old self.new h (asked.Query query.now) result }
        ensures count { StepCounts (K.keeper.faults self.old.room.now.keeper) (K.keeper.faults self.new.room.now.keeper) result }
    {
        if can_tell(query) {
            return self.ask(query);
        }
        bad_line(self.alloc, LineProperty::Ask)
    }
}

impl<K: Keeper, C: Clock> Answering for LineDesk<'_, K, C> {
    ghost use Rattle.room_runs.specs.Lines.{of_line};
    ghost use Rattle.room_runs.specs.Desk.{Shelf, line_hand};
    ghost use Rattle.room_runs.specs.Life.{life};

    ghost Entry = { Entry };

    ghost Found = { Option (List Bytes) };

    ghost Shelf = { Shelf };

    ghost faults = { λ d. K.keeper.faults d.room.now.keeper };

    ghost life = { λ s. life K.keeper C.clock line_hand s };

    ghost meaning = { λ s. of_line s.before };

    fn answer(&mut self, line: Option<&[u8]>) -> Result<Vec<u8>, Stopped> {
        let Some(bytes) = line else {
            return bad_line(self.alloc, LineProperty::Line);
        };
        match read_line(self.alloc, bytes) {
            Ok(asked) => self.answer_asked(asked),
            Err(LineFault::Bad { property }) => bad_line(self.alloc, property),
            Err(LineFault::Memory) => Err(Stopped::Memory),
        }
    }
}
