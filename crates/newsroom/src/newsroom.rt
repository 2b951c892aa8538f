//! The tables, and what they answer.
ghost use Rattle.std.specs.Prelude.{◌≡◌, ◌≤◌, [], ◌∷◌, ◌<◌, length, IfOk};
ghost use Rattle.news_types.specs.declared.entry.Entry.{Entry};
ghost use Rattle.news_types.specs.declared.entry.Act.TheVariants.{Request};
ghost use Rattle.news_types.specs.History.{History, moment as last_moment, last_stop};
ghost use Rattle.news_types.specs.Outcome.{kept, request_at, reply_to, entry_of};
ghost use Rattle.newsroom.specs.Acts.{IsSmall};
ghost use Rattle.newsroom.specs.Stands.{StandsFor, Stands, store_of};
ghost use Rattle.newsroom.specs.Changes.{HasMemory, IsFor, IfChange, Decides, Prepares};

use crate::callers::{self, Last};
use crate::change::{Change, Prepared};
use desk_records::{Dues, Wires};
use news_types::{Act, Command, Memory, Moment, Name, Reply};
use rule_tables::Rules;
use std::alloc::Global;
use std::collections::HashMap;
use story_tables::Stories;
use uuid::Uuid;

/// Tables that stand for one list of accepted entries.
#[derive(Drop)]
pub struct Newsroom {
    pub(crate) alloc: Global,
    pub(crate) store: Uuid,
    pub(crate) entries: u64,
    pub(crate) moment: Moment,
    /// The place of the last stop, or 0.
    pub(crate) last_stop: u64,
    pub(crate) callers: HashMap<Name, Last>,
    pub(crate) rules: Rules,
    pub(crate) stories: Stories,
    pub(crate) dues: Dues,
    pub(crate) wires: Wires,
}

impl Newsroom {
    /// A newsroom of this store, which stands for the empty list.
    pub fn new(alloc: Global, store: Uuid) -> Result<Newsroom, Memory>
        ensures stands { IfOk result (λ newsroom. StandsFor newsroom []) }
        ensures store { IfOk result (λ newsroom. store_of newsroom ≡ store) }
    {
        Ok(Newsroom {
            alloc,
            store,
            entries: 0,
            moment: 0,
            last_stop: 0,
            callers: callers::none(alloc),
            rules: Rules::new(alloc)?,
            stories: Stories::new(alloc)?,
            dues: Dues::new(alloc)?,
            wires: Wires::new(alloc)?,
        })
    }

    /// The moment of the last entry, 0 for the empty list.
    pub fn moment(&self) -> Moment
        ensures { (h : History) → StandsFor self.now h → result ≡ last_moment h }
    {
        self.moment
    }

    /// The number of entries.
    pub fn entries(&self) -> u64
        ensures { (h : History) → StandsFor self.now h → result ≡ length h }
    {
        self.entries
    }

    /// The identifier of its store.
    pub fn store(&self) -> Uuid
        ensures { result ≡ store_of self.now }
    {
        self.store
    }

    /// The place of the last stop or halt, 0 without one.
    pub fn last_stop(&self) -> u64
        ensures { (h : History) → StandsFor self.now h → result ≡ last_stop h }
    {
        self.last_stop
    }

    /// Decides a request or an ingest at a moment, and takes the memory for it. The list stays as it is: `commit` keeps the
    /// change, and one that is dropped leaves nothing. `Memory` may come in place of any answer. The server's own acts go
    /// through `legal` and `apply`.
    pub fn prepare(&mut self, act: &Act, moment: Moment) -> Prepared
        requires stands { Stands self.old }
        requires given { IsSmall act.now → ⊥ }
        ensures outcome { (h : History) → StandsFor self.old h → Prepares h moment act.now result }
        ensures stays { (h : History) → StandsFor self.old h → StandsFor self.new h }
        ensures store { store_of self.new ≡ store_of self.old }
        ensures memory { IfChange result (λ change. HasMemory self.new change) }
        ensures change { (h : History) → StandsFor self.old h → last_moment h ≤ moment → IfChange result (λ change. IsFor change (entry_of moment act.now) h) }
    {
        match act {
            Act::Request {
                caller,
                number,
                command,
            } => self.prepare_request(caller, *number, command, moment),
            Act::Ingest { provider, incoming } => self.prepare_ingest(provider, incoming, moment),
            Act::Advance | Act::Attempt { .. } | Act::Receipt { .. } | Act::Halt => unreachable!(),
        }
    }

    // Decides a request, and takes the memory for it.
    fn prepare_request(
        &mut self,
        caller: &Name,
        number: u64,
        command: &Command,
        moment: Moment,
    ) -> Prepared
        requires stands { Stands self.old }
        ensures outcome { (h : History) → StandsFor self.old h → Decides (request_at h caller.now number command.now moment) (kept h moment (Request caller.now number command.now)) result }
        ensures stays { (h : History) → StandsFor self.old h → StandsFor self.new h }
        ensures store { store_of self.new ≡ store_of self.old }
        ensures memory { IfChange result (λ change. HasMemory self.new change) }
        ensures change { (h : History) → StandsFor self.old h → last_moment h ≤ moment → IfChange result (λ change. IsFor change (entry_of moment (Request caller.now number command.now)) h) }
    {
        let last = self.callers.get(caller);
        if let Some(denial) = callers::turn_denied(last, number, command) {
            return Prepared::Denied(denial);
        }
        if callers::repeats(last, number, command) {
            return Prepared::Repeat(callers::replied(last));
        }
        if let Some(denial) = self.command_denied(caller, command, moment) {
            return Prepared::Denied(denial);
        }
        match self.take_memory(caller, number, command, moment) {
            Ok(request) => Prepared::Change(Change::Request(request)),
            Err(_) => Prepared::Memory,
        }
    }

    /// Keeps a change as the next entry, tells the reply to it, and takes no memory. Nothing else may have been kept since
    /// it was prepared.
    pub fn commit(&mut self, change: Change) -> Reply
        requires stands { (h : History) × (e : Entry) × (StandsFor self.old h × IsFor change e h × (length h < 4294967295)) }
        requires memory { HasMemory self.old change }
        ensures stands { (h : History) (e : Entry) → StandsFor self.old h → IsFor change e h → StandsFor self.new (e ∷ h) }
        ensures store { store_of self.new ≡ store_of self.old }
        ensures reply { (h : History) (e : Entry) → StandsFor self.old h → IsFor change e h → result ≡ reply_to h e.moment e.act }
    {
        match change {
            Change::Request(request) => self.keep_request(request),
            Change::Ingest(ingest) => self.keep_ingest(ingest),
        }
    }
}
