//! The acts of the server itself: ticks, halts and receipts. None of them takes memory.
ghost use Rattle.std.specs.Prelude.{◌≡◌, ℕ, ◌≤◌, ◌<◌, ◌∷◌, [], List, length};
ghost use Rattle.news_types.specs.declared.entry.Entry.{Entry};
ghost use Rattle.news_room.specs.Steps.{ticked_by, kept_by};
ghost use Rattle.news_types.specs.declared.entry.Act.TheVariants.{Advance, Receipt};
ghost use Rattle.news_types.specs.History.{History, moment as last_moment, moment_at};
ghost use Rattle.news_types.specs.Books.{Book};
ghost use Rattle.news_types.specs.Calls as call;
ghost use Rattle.news_types.specs.Feeds.{feed};
ghost use Rattle.news_types.specs.Delivery.{acked};
ghost use Rattle.news_types.specs.Outcome.{entry_of, kept};

use crate::answers::{Kept, Ticked};
use crate::room::{LAST, LIMIT, Room};
use entry_codec::encode_small;
use news_io::{AppendFault, Keeper};
use news_types::{Act, Entry, Moment, Name, Reply};

impl<K: Keeper> Room<K> {
    ghost use Rattle.entry_codec.specs.Fits.{Fits};
    ghost use Rattle.newsroom.specs.Acts.{IsSmall};
    ghost use Rattle.news_room.specs.Appends.{SmallStep};
    ghost use Rattle.news_room.specs.Stands.{Stands, SomeBook, numbers};
    ghost use Rattle.news_room.specs.Said.{said_kept, said_tick};
    ghost use Rattle.news_room.specs.Steps.{Puts, Receives, ReceiptStep, ReleaseStep, TickStep, HaltStep, tick_entries, is_append_fault, is_kept_fault, After};
    ghost use Rattle.news_room.specs.Events.{Happens};

    // Gives the record of one of these acts to the keeper.
    fn append_small(&mut self, entry: &Entry, limit: u64) -> Result<(), AppendFault>
        requires fits { Fits entry.now }
        requires small { IsSmall entry.now.act }
        requires limit { limit ≤ 1073741824 }
        ensures step { SmallStep K.keeper self.old.keeper self.new.keeper limit entry.now result }
        ensures machine { self.new.machine ≡ self.old.machine }
    {
        let record = encode_small(entry);
        self.keeper.append(record.as_slice(), limit)
    }

    // Keeps one of these acts, which may follow: the keeper first, and then the machine.
    pub(crate) fn put(&mut self, entry: &Entry, limit: u64) -> Result<(), AppendFault>
        requires stands { SomeBook K.keeper self.old }
        requires fits { Fits entry.now }
        requires small { IsSmall entry.now.act }
        requires limit { limit ≤ 1073741824 }
        ensures { Puts K.keeper self.old self.new limit entry.now result }
    {
        match self.append_small(entry, limit) {
            Ok(()) => {
                self.machine.apply(&entry.act, entry.moment);
                Ok(())
            }
            Err(fault) => Err(fault),
        }
    }

    // Keeps the entry of a tick at a moment, where one is due.
    pub(crate) fn release(&mut self, moment: Moment) -> Result<bool, AppendFault>
        requires stands { (b : Book) × (Stands K.keeper self.old b × (last_moment b.list ≤ moment)) }
        requires early { moment < 253402300800 }
        ensures { (more : List Entry) × ((b : Book) → Stands K.keeper self.old b → last_moment b.list ≤ moment
            → After K.keeper self.old self.new b (tick_entries b.list moment) more (is_append_fault result)
            (ReleaseStep (numbers K.keeper self.old self.new) b moment more result)) }
    {
        let entry = Entry {
            moment,
            act: Act::Advance,
        };
        let released = self.put_due(&entry);
        drop(entry);
        released
    }

    // The same, where the entry is there.
    #[tactic(none)]
    fn put_due(&mut self, entry: &Entry) -> Result<bool, AppendFault>
        requires stands { (b : Book) × (Stands K.keeper self.old b × (last_moment b.list ≤ entry.now.moment)) }
        requires early { entry.now.moment < 253402300800 }
        requires tick { entry.now.act ≡ Advance }
        ensures { (more : List Entry) × ((b : Book) → Stands K.keeper self.old b → last_moment b.list ≤ entry.now.moment
            → After K.keeper self.old self.new b (tick_entries b.list entry.now.moment) more (is_append_fault result)
            (ReleaseStep (numbers K.keeper self.old self.new) b entry.now.moment more result)) }
    {
        if !self.machine.legal(&entry.act, entry.moment) {
            return Ok(false);
        }
        match self.put(entry, LIMIT) {
            Ok(()) => Ok(true),
            Err(fault) => Err(fault),
        }
    }

    /// Releases what waits, at a reading of the clock, in seconds: one entry is kept where a publication waits whose
    /// release is past the list's moment and not past this one.
    #[tactic(none)]
    pub fn tick(&mut self, now: u64) -> Ticked
        requires stands { SomeBook K.keeper self.old }
        ensures { (more : List Entry) × ((b : Book) → Stands K.keeper self.old b
            → Happens K.keeper self.old self.new b more call.Ticked now (said_tick result)
            (TickStep (numbers K.keeper self.old self.new) b now more result)) }
    {
        let moment = self.moment_at(now);
        match self.release(moment) {
            Ok(true) => Ticked::Kept {
                entry: self.machine.entries(),
            },
            Ok(false) => Ticked::Still,
            Err(fault) => not_ticked(fault),
        }
    }

    /// Keeps a halt at a reading of the clock, in seconds. It alone may use what is left of the log above the limit of
    /// all other entries.
    #[tactic(none)]
    pub fn halt(&mut self, now: u64) -> Ticked
        requires stands { SomeBook K.keeper self.old }
        ensures { (more : List Entry) × ((b : Book) → Stands K.keeper self.old b
            → Happens K.keeper self.old self.new b more call.Halted now (said_tick result)
            (HaltStep (numbers K.keeper self.old self.new) b now more result)) }
    {
        let entry = Entry {
            moment: self.moment_at(now),
            act: Act::Halt,
        };
        let kept = self.put(&entry, LAST);
        drop(entry);
        match kept {
            Ok(()) => Ticked::Kept {
                entry: self.machine.entries(),
            },
            Err(fault) => not_ticked(fault),
        }
    }

    /// Takes a subscriber's receipt for the first entries of its feed, so many, at a reading of the clock, in seconds.
    #[tactic(none)]
    pub fn receipt(&mut self, now: u64, subscriber: Name, n: u32) -> Kept
        requires stands { SomeBook K.keeper self.old }
        ensures { (more : List Entry) × ((b : Book) → Stands K.keeper self.old b
            → Happens K.keeper self.old self.new b more (call.Receipted subscriber n) now (said_kept result)
            (ReceiptStep (numbers K.keeper self.old self.new) b now subscriber n more result)) }
    {
        match self.machine.judge_receipt(&subscriber, n) {
            Ok(true) => self.raise(now, subscriber, n),
            Ok(false) => Kept::Done(reply_of(0)),
            Err(denial) => Kept::Denied(denial),
        }
    }

    // Keeps a receipt that raises what is acknowledged.
    #[tactic(none)]
    fn raise(&mut self, now: u64, subscriber: Name, n: u32) -> Kept
        requires stands { SomeBook K.keeper self.old }
        ensures { (more : List Entry) × ((b : Book) → Stands K.keeper self.old b → acked b.list subscriber < n → n ≤ length (feed b.list subscriber)
            → After K.keeper self.old self.new b (entry_of (moment_at b.list now) (Receipt subscriber n) ∷ []) more (is_kept_fault result)
            (Receives (numbers K.keeper self.old self.new) more (kept b.list (moment_at b.list now) (Receipt subscriber n)) result)) }
    {
        let entry = Entry {
            moment: self.moment_at(now),
            act: Act::Receipt { subscriber, n },
        };
        let kept = self.put(&entry, LIMIT);
        drop(entry);
        match kept {
            Ok(()) => Kept::Done(reply_of(self.machine.entries())),
            Err(fault) => not_raised(fault),
        }
    }
}

/// What a tick or a halt is answered whose entry is not kept.
fn not_ticked(fault: AppendFault) -> Ticked
    ensures { result ≡ ticked_by fault }
{
    match fault {
        AppendFault::Fault => Ticked::Fault,
        AppendFault::Full { size, length } => Ticked::Full { size, length },
    }
}

/// What a receipt is answered whose entry is not kept.
fn not_raised(fault: AppendFault) -> Kept
    ensures { result ≡ kept_by fault }
{
    match fault {
        AppendFault::Fault => Kept::Fault,
        AppendFault::Full { size, length } => Kept::Full { size, length },
    }
}

/// The reply to what makes no item and no publication, with the place of its entry, or 0.
fn reply_of(entry: u64) -> Reply
    ensures { result ≡ record { entry = entry; item = 0; publication = 0; release = 0 } }
{
    Reply {
        entry,
        item: 0,
        publication: 0,
        release: 0,
    }
}
