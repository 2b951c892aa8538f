//! A newsroom in memory whose memory runs out again and again.
ghost use Rattle.plain_server.specs.Rooms.{StandsForSome};

use crate::hoard::Hoard;
use desk_routes::{Refusal, RoomAsk};
use feed_http::{Answers, HttpAnswer, answer_one};
use news_io::MemoryKeeper;
use news_room::Room;
use server_counts::Counts;
use std::alloc::Global;
use std::io;

/// A newsroom that finds no memory in every other turn, of which the first is one.
#[derive(Drop)]
pub(crate) struct StarvedRoom {
    room: Room<MemoryKeeper>,
    hoard: Hoard,
    /// Whether it finds no memory in the next turn.
    starves: bool,
}

impl StarvedRoom {
    ghost use Rattle.std.specs.Prelude.{IfOk};

    pub(crate) fn new(alloc: Global, room: Room<MemoryKeeper>) -> io::Result<StarvedRoom>
        requires { StandsForSome room }
        ensures { IfOk result (λ starved. StandsForSome starved.room) }
    {
        Ok(StarvedRoom {
            room,
            hoard: Hoard::new(alloc)?,
            starves: true,
        })
    }
}

impl Answers for StarvedRoom {
    ghost use Rattle.news_io.specs.Devices.{memory_keeper};
    ghost use Rattle.feed_http.specs.Turn.{IsAnsweredUncounted};
    ghost use Rattle.plain_server.specs.Rooms.{StandsForSome};

    ghost is_ready = { λ starved. StandsForSome starved.room };

    ghost turn = { λ old now read answer new. IsAnsweredUncounted memory_keeper old.room now read answer new.room };

    fn answer(&mut self, alloc: Global, now: u64, read: Result<RoomAsk, Refusal>) -> HttpAnswer {
        if self.starves {
            self.hoard.take_all();
        }
        let counts = Counts::new(alloc);
        let answer = answer_one(alloc, &mut self.room, now, &counts, read);
        self.hoard.give_back();
        self.starves = !self.starves;
        answer
    }

    fn count(&self, _status: u16) {}
}
