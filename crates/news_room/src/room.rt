//! The room.
ghost use Rattle.std.specs.Prelude.{◌≡◌, ℕ, ◌≤◌, ◌∷◌, [], List, IfOk, length, false, option_map};
ghost use Rattle.std.specs.Option.{option_copied};
ghost use Rattle.news_types.specs.declared.entry.Entry.{Entry};
ghost use Rattle.news_types.specs.Names.{Bytes};
ghost use Rattle.news_types.specs.History.{History, moment, moment_at, last_stop};
ghost use Rattle.news_types.specs.Books.{Book};
ghost use Rattle.news_types.specs.Calls.{Asked, Ingested, Requested};
ghost use Rattle.news_types.specs.Due.{shown};
ghost use Rattle.news_types.specs.Publications.{pubs};
ghost use Rattle.news_types.specs.Feeds.{feed};
ghost use Rattle.news_types.specs.Answers.{query_answer, publication_at};
ghost use Rattle.story_tables.specs.Holding.{has_item};
ghost use Rattle.story_tables.specs.Pages.{publication_of};
ghost use Rattle.news_types.specs.Frames.{frame_bytes_at};
ghost use Rattle.feed_frames.specs.Writer.{the_writer};
ghost use Rattle.news_room.specs.Stands.{limit_of};

use crate::answers::Handled;
use entry_codec::encode;
use news_io::{AppendFault, Keeper};
use news_types::{Act, Answer, Command, Entry, Incoming, Memory, Moment, Name, Query, StandsFor};
use newsroom::{Change, Newsroom, Prepared};
use publications::Published;
use std::alloc::Global;
use uuid::Uuid;

/// How many bytes of the log an entry may use that is no stop and no halt.
pub(crate) const LIMIT: u64 = 1073737728;

/// How many bytes of it a stop may use: what is left above is for the record of a halt.
const STOP_LIMIT: u64 = 1073741810;

/// How many bytes it may have.
pub(crate) const LAST: u64 = 1073741824;

/// The last moment that there is, in seconds: the end of the year 9999.
const LAST_MOMENT: Moment = 253402300799;

/// A newsroom with its keeper: it stands for the list of the entries that are kept.
#[derive(Drop)]
pub struct Room<K> {
    pub(crate) alloc: Global,
    pub(crate) keeper: K,
    pub(crate) machine: Newsroom,
}

impl<K: Keeper> Room<K> {
    ghost use Rattle.entry_codec.specs.Fits.{Fits};
    ghost use Rattle.news_types.specs.Fits.{FitsIncoming};
    ghost use Rattle.news_types.specs.FitsCommands.{FitsCommand};
    ghost use Rattle.newsroom.specs.Asking.{asks_frame};
    ghost use Rattle.newsroom.specs.Acts.{IsSmall};
    ghost use Rattle.newsroom.specs.Changes.{HasMemory, IsFor};
    ghost use Rattle.newsroom.specs.Stands as machine;
    ghost use Rattle.news_room.specs.Appends.{AppendStep};
    ghost use Rattle.news_room.specs.Stands.{Stands, SomeBook, numbers};
    ghost use Rattle.news_room.specs.Said.{said, said_told};
    ghost use Rattle.news_room.specs.Steps.{RequestStep, IngestStep, KeepStep, Answers, outcome_of, entries, is_fault, After};
    ghost use Rattle.news_room.specs.Events.{IsEvent, Happens};

    /// The number of entries.
    pub fn front(&self) -> u64
        ensures { (b : Book) → Stands K.keeper self.now b → result ≡ length b.list }
    {
        self.machine.entries()
    }

    /// The place of the last stop or halt, 0 without one.
    pub fn last_stop(&self) -> u64
        ensures { (b : Book) → Stands K.keeper self.now b → result ≡ last_stop b.list }
    {
        self.machine.last_stop()
    }

    /// The bytes that its keeper uses.
    pub fn size(&self) -> u64
        ensures { result ≡ K.keeper.used self.now.keeper }
    {
        self.keeper.size()
    }

    /// The keeper.
    pub fn into_keeper(self) -> K
        ensures { result ≡ self.keeper }
    {
        self.keeper
    }

    // The moment of what comes next, at a reading of the clock.
    pub(crate) fn moment_at(&self, now: u64) -> Moment
        ensures { (b : Book) → Stands K.keeper self.now b → result ≡ moment_at b.list now }
    {
        self.machine.moment().max(now.min(LAST_MOMENT))
    }

    // Gives the record of an entry to the keeper.
    fn append(&mut self, entry: &Entry) -> Result<(), Handled>
        requires fits { Fits entry.now }
        ensures step { AppendStep K.keeper self.old.keeper self.new.keeper entry.now result }
        ensures machine { self.new.machine ≡ self.old.machine }
    {
        let Ok(bytes) = encode(self.alloc, entry) else {
            return Err(Handled::Memory);
        };
        match self.keeper.append(bytes.as_slice(), limit_of(&entry.act)) {
            Ok(()) => Ok(()),
            Err(AppendFault::Fault) => Err(Handled::Fault),
            Err(AppendFault::Full { size, length }) => Err(Handled::Full { size, length }),
        }
    }

    // Keeps what was prepared: the keeper first, and then the machine.
    fn keep(&mut self, change: Change, entry: &Entry) -> Handled
        requires stands { (b : Book) × (Stands K.keeper self.old b × IsFor change entry.now b.list) }
        requires memory { HasMemory self.old.machine change }
        requires fits { Fits entry.now }
        ensures { (more : List Entry) × ((b : Book) → Stands K.keeper self.old b → IsFor change entry.now b.list
            → After K.keeper self.old self.new b (entry.now ∷ []) more (is_fault result)
            (KeepStep (numbers K.keeper self.old self.new) b entry.now more result)) }
    {
        match self.append(entry) {
            Ok(()) => Handled::Done(self.machine.commit(change)),
            Err(answered) => {
                drop(change);
                answered
            }
        }
    }

    // Decides a request or an ingest, and keeps its entry where it is accepted.
    fn decide(&mut self, entry: &Entry) -> Handled
        requires stands { (b : Book) × (Stands K.keeper self.old b × (moment b.list ≤ entry.now.moment)) }
        requires given { IsSmall entry.now.act → ⊥ }
        requires fits { Fits entry.now }
        ensures { (more : List Entry) × ((b : Book) → Stands K.keeper self.old b → moment b.list ≤ entry.now.moment
            → After K.keeper self.old self.new b (entries (outcome_of b.list entry.now).more) more (is_fault result)
            (Answers (numbers K.keeper self.old self.new) more (outcome_of b.list entry.now) result)) }
    {
        match self.machine.prepare(&entry.act, entry.moment) {
            Prepared::Change(change) => self.keep(change, entry),
            Prepared::Settled(reply) => Handled::Done(reply),
            Prepared::Repeat(reply) => Handled::Repeat(reply),
            Prepared::Denied(denial) => Handled::Denied(denial),
            Prepared::Memory => Handled::Memory,
        }
    }

    /// Takes a request at a reading of the clock, in seconds. A stop may use more of the log than other requests: all but the
    /// record of a halt, so that a full server can still be stopped.
    ///
    /// What it is answered, and whether its entry is kept, are those of the list; an entry counts only once the keeper
    /// has taken it. A failure of the keeper and want of memory leave the list as it was.
    pub fn request(&mut self, now: u64, caller: Name, number: u64, command: Command) -> Handled
        requires stands { SomeBook K.keeper self.old }
        requires fits { FitsCommand command }
        ensures { (more : List Entry) × ((b : Book) → Stands K.keeper self.old b
            → Happens K.keeper self.old self.new b more (Requested caller number command) now (said result)
            (RequestStep (numbers K.keeper self.old self.new) b now caller number command more result)) }
    {
        let entry = Entry {
            moment: self.moment_at(now),
            act: Act::Request {
                caller,
                number,
                command,
            },
        };
        let answered = self.decide(&entry);
        drop(entry);
        answered
    }

    /// Takes a story that comes in from a provider, at a reading of the clock, in seconds.
    ///
    /// It is answered and kept as a request is. A story that is known already is done, and keeps no entry.
    pub fn ingest(&mut self, now: u64, provider: Name, incoming: Incoming) -> Handled
        requires stands { SomeBook K.keeper self.old }
        requires fits { FitsIncoming incoming }
        ensures { (more : List Entry) × ((b : Book) → Stands K.keeper self.old b
            → Happens K.keeper self.old self.new b more (Ingested provider incoming) now (said result)
            (IngestStep (numbers K.keeper self.old self.new) b now provider incoming more result)) }
    {
        let moment = self.moment_at(now);
        let entry = Entry {
            moment,
            act: Act::Ingest { provider, incoming },
        };
        let answered = self.decide(&entry);
        drop(entry);
        answered
    }

    /// Answers a question on the list as it is.
    pub fn ask(&self, query: &Query) -> Result<Answer, Memory>
        requires stands { SomeBook K.keeper self.now }
        ensures answer { IfOk result (λ told. (b : Book) → Stands K.keeper self.now b → told ≡ query_answer (frame_bytes_at (the_writer b.store) b.list) b.list query.now) }
        // only a question for a frame asks how frames are written
        ensures plain { asks_frame query.now ≡ false → IfOk result (λ told. (b : Book) (frame : Bytes → ℕ → Bytes) → Stands K.keeper self.now b → told ≡ query_answer frame b.list query.now) }
        ensures event { (b : Book) (now : ℕ) → Stands K.keeper self.now b → IsEvent K.keeper self.now self.now b [] (Asked query.now) now (said_told result) }
    {
        self.machine.ask(query)
    }

    /// The identifier of its store.
    pub fn store(&self) -> Uuid
        ensures { (b : Book) → Stands K.keeper self.now b → result ≡ b.store }
    {
        self.machine.store()
    }

    /// The machine, to be read: nothing is copied.
    pub fn newsroom(&self) -> &Newsroom
        ensures stands_for { (b : Book) → Stands K.keeper self.now b → machine.StandsFor result.now b.list }
        ensures store { (b : Book) → Stands K.keeper self.now b → machine.store_of result.now ≡ b.store }
        ensures stands { SomeBook K.keeper self.now → machine.Stands result.now }
    {
        &self.machine
    }

    /// What is kept of the publication of that number, if it is there. Nothing is copied.
    pub fn published(&self, number: u32) -> Option<&Published>
        ensures { (b : Book) → Stands K.keeper self.now b → option_map (publication_of number) (option_copied result) ≡ option_map shown (publication_at number (pubs b.list)) }
    {
        self.machine.published(number)
    }

    /// Whether the feed of a subscriber has a publication of the item, the last of which is no kill or recall. It takes no
    /// memory.
    pub fn has_item(&self, subscriber: &Name, item: u32) -> bool
        ensures { (b : Book) → Stands K.keeper self.now b → result ≡ has_item (feed b.list subscriber.now) item }
    {
        self.machine.has_item(subscriber, item)
    }
}

/// How many bytes of the log may be used with the entry of this act.
fn limit_of(act: &Act) -> u64
    ensures limit { result ≡ limit_of act.now }
    ensures few { result ≤ 1073741824 }
{
    match act {
        Act::Halt => LAST,
        Act::Request { command, .. } if matches!(command, Command::Stop) => STOP_LIMIT,
        _ => LIMIT,
    }
}

impl<K: Keeper> StandsFor for Room<K> {
    ghost use Rattle.news_room.specs.Stands.{Stands};

    ghost stands = { λ room b. Stands K.keeper room b };

    ghost faults = { λ room. K.keeper.faults room.keeper };

    ghost used = { λ room. K.keeper.used room.keeper };

    fn count(&self) -> u64 {
        self.front()
    }
}
