//! A room that nobody shares, and for which nothing is counted.
ghost use Rattle.news_room.specs.Stands.{SomeBook};
ghost use Rattle.feed_http.specs.Turn.{IsAnsweredUncounted};
ghost use Rattle.feed_http.specs.Served.{Served, Causes};

use crate::answers::{Answers, HttpAnswer};
use crate::connection::serve;
use crate::ended::Ended;
use crate::turn::answer_one;
use desk_routes::{Refusal, RoomAsk, Routes};
use news_io::{Clock, Keeper, Sink, Source};
use news_room::Room;
use server_counts::Counts;
use std::alloc::Global;

impl<K: Keeper> Answers for Room<K> {
    ghost use Rattle.news_room.specs.Stands.{SomeBook};
    ghost use Rattle.feed_http.specs.Turn.{IsAnsweredUncounted};

    ghost is_ready = { λ room. SomeBook K.keeper room };

    ghost turn = { IsAnsweredUncounted K.keeper };

    fn answer(&mut self, alloc: Global, now: u64, read: Result<RoomAsk, Refusal>) -> HttpAnswer {
        let counts = Counts::new(alloc);
        answer_one(alloc, self, now, &counts, read)
    }

    fn count(&self, _status: u16) {}
}

/// Answers the requests of a connection by a room that nobody shares.
///
/// The bytes written are the responses to the first requests of the connection's bytes, in order and however the bytes are
/// cut, each by the list that the one before left; behind them the answer of what is no request. They are a beginning of
/// that only where the sink failed.
pub fn serve_plain<K: Keeper, C: Clock, S: Source, O: Sink>(
    routes: &Routes,
    room: &mut Room<K>,
    clock: &mut C,
    source: &mut S,
    sink: &mut O,
) -> Ended
    requires { SomeBook K.keeper room.old }
    ensures served { Served (IsAnsweredUncounted K.keeper) C.clock S.source O.sink room.old room.new clock.old clock.new source.old source.new sink.old sink.new result }
    ensures stands { SomeBook K.keeper room.new }
    ensures causes { Causes (S.source.faults source.old) (S.source.faults source.new) (O.sink.faults sink.old) (O.sink.faults sink.new) result }
{
    serve(routes, room, clock, source, sink)
}
