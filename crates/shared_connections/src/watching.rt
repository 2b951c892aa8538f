//! What is counted of a connection. Nothing that is proved rests on it.
use desk_routes::{Asking, HttpAsk, Notice, Refusal, RoomAsk};
use feed_http::Ended;
use news_types::Name;
use server_watch::Watch;
use std::sync::Wait;

/// The provider of whom an item is taken in, where that is asked.
pub(crate) fn provider_of(read: &Result<RoomAsk, Refusal>) -> Option<Name> {
    match read {
        Ok(
            RoomAsk::By(
                Asking {
                    ask: HttpAsk::Ingest { provider, .. },
                    ..
                },
            ),
        ) => Some(*provider),
        _ => None,
    }
}

/// Counts the item of a provider that was asked in a turn, at a reading of the clock, in seconds, and answered with this
/// status.
pub(crate) fn watch_turn(
    rt: &impl Wait,
    watch: &Watch,
    provider: Option<Name>,
    now: u64,
    status: u16,
) {
    // only what was taken in counts as an item: any other name could be one that nobody knows
    if status < 300 {
        if let Some(provider) = provider {
            watch.count_ingest(rt, provider, now);
        }
    }
}

/// Counts a response of this status to a request, and whether the log has failed.
pub(crate) fn watch_response(rt: &impl Wait, watch: &Watch, status: u16) {
    watch.count_response(rt, status);
    if status == Notice::Fault.status() {
        watch.count_log_fault(rt);
    }
}

/// Counts the response that refused what is no request, where a connection ended so. One that had no memory to begin counts
/// as one that was refused for it.
pub(crate) fn watch_end(rt: &impl Wait, watch: &Watch, ended: Ended) {
    let refusal = match ended {
        Ended::HeadFault => Notice::HeadFault,
        Ended::TooLarge => Notice::TooLarge,
        Ended::Chunked => Notice::Chunked,
        Ended::Memory => Notice::NoMemory,
        Ended::Stopped { .. }
        | Ended::Closed
        | Ended::Limit
        | Ended::ReadFault
        | Ended::WriteFault => return,
    };
    watch.count_response(rt, refusal.status());
}
