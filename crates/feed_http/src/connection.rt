//! The requests of a connection, one after the other.
ghost use Rattle.feed_http.specs.Served.{Served, Causes};

use crate::answers::Answers;
use crate::ended::Ended;
use crate::exchange::{exchange, refuse};
use desk_routes::{Notice, Routes};
use http_wire::{Buffer, Wire, read_request};
use news_io::{Clock, Sink, Source};

/// As many requests of a connection are answered.
const MOST_REQUESTS: u32 = 64;

/// Answers the requests of a connection, in order. Each answer has passed on before the next request is read.
///
/// What ends it comes behind the last answer: the end of the input, or an answer to what is no request. A stop that a turn
/// kept ends it before all else.
pub fn serve<A: Answers, C: Clock, S: Source, O: Sink>(
    routes: &Routes,
    room: &mut A,
    clock: &mut C,
    source: &mut S,
    sink: &mut O,
) -> Ended
    requires { A.is_ready room.old }
    ensures served { Served A.turn C.clock S.source O.sink room.old room.new clock.old clock.new source.old source.new sink.old sink.new result }
    ensures ready { A.is_ready room.new }
    ensures causes { Causes (S.source.faults source.old) (S.source.faults source.new) (O.sink.faults sink.old) (O.sink.faults sink.new) result }
{
    let Ok(mut buffer) = Buffer::new(routes.alloc()) else {
        return Ended::Memory;
    };
    for count in 0..MOST_REQUESTS {
        match read_request(&mut buffer, source) {
            Wire::Request(request) => {
                let turned = exchange(routes, room, clock, sink, request);
                if let Some(place) = turned.stop {
                    return Ended::Stopped { place };
                }
                if let Err(_) = turned.wrote {
                    return Ended::WriteFault;
                }
                if turned.close {
                    return Ended::Closed;
                }
            }
            Wire::End => return Ended::Closed,
            Wire::HeadFault => return refuse(routes, sink, Notice::HeadFault, Ended::HeadFault),
            Wire::TooLarge => return refuse(routes, sink, Notice::TooLarge, Ended::TooLarge),
            Wire::Chunked => return refuse(routes, sink, Notice::Chunked, Ended::Chunked),
            Wire::ReadFault => return Ended::ReadFault,
            Wire::Memory => return refuse(routes, sink, Notice::NoMemory, Ended::Memory),
        }
    }
    Ended::Limit
}
