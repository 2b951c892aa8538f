//! The work of a turn.
ghost use Rattle.std.specs.Prelude.{◌≡◌, IfOk};
ghost use Rattle.desk_routes.specs.Asking.{FitsRoomAsk};
ghost use Rattle.shared_connections.specs.Fits.{fits_prop};
ghost use Rattle.shared_connections.specs.Turns.{no_memory_answer};

use desk_routes::{Notice, Refusal, RoomAsk, notify};
use feed_http::{HttpAnswer, answer_one};
use news_io::Keeper;
use news_room::Room;
use room_lock::Work;
use server_counts::Counts;
use std::alloc::Global;
use std::mem;

/// What is answered where there is no memory.
fn no_memory(alloc: Global) -> HttpAnswer
    ensures { result ≡ no_memory_answer }
{
    HttpAnswer {
        response: notify(alloc, Notice::NoMemory),
        stop: None,
    }
}

/// What is asked, or why it is refused, and what it is answered.
#[derive(Drop)]
pub(crate) struct Serving {
    alloc: Global,
    /// What is asked; behind the turn, nothing.
    read: Result<RoomAsk, Refusal>,
    /// The reading of the clock, in seconds.
    now: u64,
    /// The counts that it is answered by, or none: there was no memory for them.
    counts: Option<Counts>,
    /// What it is answered; until a turn was taken, that there is no memory.
    pub(crate) answer: HttpAnswer,
    ghost fits: { IfOk read FitsRoomAsk } by { fits_prop read },
}

impl Serving {
    ghost use Rattle.std.specs.Prelude.{◌≡◌};

    pub(crate) fn new(
        alloc: Global,
        read: Result<RoomAsk, Refusal>,
        now: u64,
        counts: Option<Counts>,
    ) -> Serving
        requires { IfOk read FitsRoomAsk }
        ensures { (result.read ≡ read) × (result.now ≡ now) }
    {
        Serving {
            alloc,
            read,
            now,
            counts,
            answer: no_memory(alloc),
        }
    }
}

impl<K: Keeper> Work<Room<K>> for Serving {
    ghost use Rattle.shared_connections.specs.Turns.{IsAnsweredIn, at_hand};

    ghost does = { λ old before new after. IsAnsweredIn before after old.read old.now (at_hand old.counts) new.answer };

    fn turn(&mut self, room: &mut Room<K>) {
        let read = mem::replace(&mut self.read, Err(Refusal::Memory));
        match &self.counts {
            Some(counts) => {
                self.answer = answer_one(self.alloc, room, self.now, counts, read);
            }
            None => {
                drop(read);
                self.answer = no_memory(self.alloc);
            }
        }
    }
}
