//! The requests of a connection to a shared room.
ghost use Rattle.std.specs.Prelude.{◌≡◌};
ghost use Rattle.room_lock.specs.Locks.{front, calls, lock_of, id_of, start_of};
ghost use Rattle.news_room.specs.Stands.{Stands};
ghost use Rattle.feed_http.specs.Served.{Causes};
ghost use Rattle.shared_connections.specs.Connections.{ServedInTurns};

use crate::turns::Turns;
use crate::watching::watch_end;
use desk_routes::Routes;
use feed_http::{Ended, serve};
use news_io::{Clock, Keeper, Sink, Source};
use news_room::Room;
use room_lock::{Pass, Shared};
use server_watch::Watch;
use std::sync::Wait;

/// Answers the requests of a connection, in order, each in one turn of the room's lock, and of a wire each story in a turn of
/// its own. Each answer has passed on before the next request is read.
///
/// The bytes written are the responses to the first requests of the connection's bytes, each by the lists that its turns found,
/// and behind them the answer of what is no request; or a beginning of that where the sink failed. A stop that a turn kept
/// ends the connection before all else, with its place in the list. The returned pass has one call more for each turn.
///
/// In the watch it counts the answers, the faults of the log that they tell, and the items of providers, those of a wire one
/// by one. Where there is no memory for what was counted before a turn, nothing is asked in it, and it is answered as where
/// there is no memory.
pub fn serve_connection<K: Keeper + Drop, C: Clock, S: Source, O: Sink, R: Wait>(
    rt: &R,
    routes: &Routes,
    watch: &Watch,
    shared: &Shared<Room<K>>,
    pass: Pass,
    clock: &mut C,
    source: &mut S,
    sink: &mut O,
) -> (Ended, Pass)
    requires lock { lock_of pass ≡ id_of shared.now }
    ensures lock { lock_of result.1 ≡ lock_of pass }
    ensures served { ServedInTurns (Stands K.keeper (start_of shared.now)) C.clock S.source O.sink (front pass) (calls pass) (front result.1) (calls result.1) clock.old clock.new source.old source.new sink.old sink.new result.0 }
    ensures causes { Causes (S.source.faults source.old) (S.source.faults source.new) (O.sink.faults sink.old) (O.sink.faults sink.new) result.0 }
{
    let mut turns = Turns {
        rt,
        watch,
        shared,
        pass: Some(pass),
    };
    let ended = serve(routes, &mut turns, clock, source, sink);
    let Turns { pass, .. } = turns;
    watch_end(rt, watch, ended);
    (ended, pass.unwrap())
}
