//! Claims: the frame that is sent next. The attempt is kept before the frame is handed out.
ghost use Rattle.std.specs.Prelude.{◌≡◌, ℕ, ◌≤◌, ◌<◌, [], List};
ghost use Rattle.news_types.specs.declared.entry.Entry.{Entry};
ghost use Rattle.news_types.specs.declared.query.Ready.TheVariants.{Now};
ghost use Rattle.news_types.specs.Names.{Bytes};
ghost use Rattle.news_types.specs.History.{History, moment as last_moment};
ghost use Rattle.news_types.specs.Books.{Book};
ghost use Rattle.news_types.specs.Delivery.{choice};
ghost use Rattle.feed_frames.specs.Writer.{the_writer};
ghost use Rattle.news_room.specs.Claims.{claimed_by};

use crate::room::{LIMIT, Room};
use news_io::{AppendFault, Keeper};
use news_types::{Act, Bytes, Entry, Moment, Name, Ready};

/// What a claim came to. The entry of its tick stays where it was kept, whatever the answer.
#[derive(Drop)]
pub enum Claimed {
    /// The next entry of a feed is to be sent: its attempt is kept.
    Job {
        /// To whom.
        subscriber: Name,
        /// The entry's number in the subscriber's feed.
        k: u32,
        /// The frame, in the subscriber's format.
        frame: Bytes,
        /// The number of entries of the list with the attempt.
        front: u64,
    },
    /// None of the feeds is ready: no attempt is kept.
    Idle {
        /// The next moment at which one may be, if nothing else happens, in seconds.
        next: Option<Moment>,
    },
    /// The keeper has failed, and its count of faults has risen. A crash may leave the entry that was tried, the tick's or
    /// the attempt, behind the list.
    Fault,
    /// The entry that was tried, the tick's or the attempt, would pass the limit: it is not kept.
    Full {
        /// The bytes in use.
        size: u64,
        /// The length of the entry's payload in bytes.
        length: u64,
    },
    /// There is no memory for the frame: no attempt is kept.
    Memory,
}

impl<K: Keeper> Room<K> {
    ghost use Rattle.news_room.specs.Stands.{Stands, SomeBook, numbers};
    ghost use Rattle.news_room.specs.Steps.{After};
    ghost use Rattle.news_room.specs.Claims.{ClaimAt, ClaimStep, ClaimHappens, attempt_entries, is_claim_fault};

    /// Takes the next frame to send to one of these subscribers, at a reading of the clock, in seconds.
    ///
    /// What waits is released first, as by a tick. Of the feeds that are ready then, the one that has been so for longest
    /// is chosen, and of several the one with the least name. Its frame is made before its attempt is kept, so that want of
    /// memory keeps none.
    pub fn claim(&mut self, now: u64, names: &[Name]) -> Claimed
        requires stands { SomeBook K.keeper self.old }
        ensures { (more : List Entry) × ((b : Book) → Stands K.keeper self.old b
            → ClaimHappens K.keeper self.old self.new b more names.now now result
            (ClaimStep (numbers K.keeper self.old self.new) b now names.now more result)) }
    {
        let moment = self.moment_at(now);
        match self.release(moment) {
            Ok(_) => self.attempt(names, moment),
            Err(fault) => not_claimed(fault),
        }
    }

    // The same behind the tick.
    fn attempt(&mut self, names: &[Name], moment: Moment) -> Claimed
        requires stands { (b : Book) × (Stands K.keeper self.old b × (last_moment b.list ≤ moment)) }
        requires early { moment < 253402300800 }
        ensures { (more : List Entry) × ((b : Book) → Stands K.keeper self.old b → last_moment b.list ≤ moment
            → After K.keeper self.old self.new b (attempt_entries b.list names.now moment) more (is_claim_fault result)
            (ClaimAt (the_writer b.store) (numbers K.keeper self.old self.new) b.list names.now moment (attempt_entries b.list names.now moment) [] more result)) }
    {
        match self.machine.next_ready(names, moment) {
            Ready::Now { subscriber, k } => self.send(subscriber, k, moment),
            Ready::Later { next } => Claimed::Idle { next },
        }
    }

    // Makes the frame of who is chosen, and keeps the attempt.
    fn send(&mut self, subscriber: Name, k: u32, moment: Moment) -> Claimed
        requires chosen { (b : Book) × (names : List Bytes) × (Stands K.keeper self.old b × (choice b.list names moment ≡ Now subscriber k)) }
        requires early { moment < 253402300800 }
        ensures { (more : List Entry) × ((b : Book) (names : List Bytes) → Stands K.keeper self.old b → last_moment b.list ≤ moment → choice b.list names moment ≡ Now subscriber k
            → After K.keeper self.old self.new b (attempt_entries b.list names moment) more (is_claim_fault result)
            (ClaimAt (the_writer b.store) (numbers K.keeper self.old self.new) b.list names moment (attempt_entries b.list names moment) [] more result)) }
    {
        let Ok(frame) = self.machine.frame(&subscriber, k) else {
            return Claimed::Memory;
        };
        let entry = Entry {
            moment,
            act: Act::Attempt { subscriber, k },
        };
        let kept = self.put(&entry, LIMIT);
        drop(entry);
        match kept {
            Ok(()) => Claimed::Job {
                subscriber,
                k,
                frame,
                front: self.machine.entries(),
            },
            Err(fault) => not_claimed(fault),
        }
    }
}

/// What a claim is answered whose entry is not kept.
fn not_claimed(fault: AppendFault) -> Claimed
    ensures { result ≡ claimed_by fault }
{
    match fault {
        AppendFault::Fault => Claimed::Fault,
        AppendFault::Full { size, length } => Claimed::Full { size, length },
    }
}
