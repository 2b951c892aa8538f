//! What holds of every step of a room.
ghost use Rattle.news_room.specs.Complete.{OutcomesComplete, ReceiptsComplete, TicksComplete, HaltsComplete, ClaimsComplete};

/// Nothing else hinders a call: where what is to follow has place and the keeper has not failed, a receipt, a tick and a halt
/// are answered as the list answers; a request, an ingest and a claim too, or there was no memory. So a request that is not
/// denied is done, or it is a repeat, and a claim for a feed that is ready gives its frame.
pub fn completeness_law()
    ensures outcomes { OutcomesComplete }
    ensures receipts { ReceiptsComplete }
    ensures ticks { TicksComplete }
    ensures halts { HaltsComplete }
    ensures claims { ClaimsComplete }
{}
