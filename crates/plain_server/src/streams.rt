//! A connection at standard input and output.
use crate::rooms::{new_clock, new_room, new_routes, out_of_memory};
use feed_http::{Ended, serve_plain};
use news_io::{StdSink, StdSource};
use std::io;

/// Serves the connection at standard input and output, by a newsroom whose log uses so many bytes and fails at this append;
/// and goes on behind its 64 requests where that is asked for.
pub(crate) fn serve_streams<R: Input + Print + AllocGlobal>(
    rt: &R,
    used: u64,
    failing: u64,
    goes_on: bool,
) -> io::Result<()> {
    let alloc = rt.alloc();
    let routes = new_routes(alloc)?;
    let mut room = new_room(alloc, used, failing)?;
    let mut clock = new_clock(alloc)?;
    let Ok(mut source) = StdSource::new(alloc, rt.reader()) else {
        return Err(out_of_memory());
    };
    let Ok(mut sink) = StdSink::new(alloc, io::writer(rt)) else {
        return Err(out_of_memory());
    };
    for _ in 0..u64::MAX {
        let ended = serve_plain(&routes, &mut room, &mut clock, &mut source, &mut sink);
        if !goes_on || ended != Ended::Limit {
            return Ok(());
        }
    }
    Ok(())
}
