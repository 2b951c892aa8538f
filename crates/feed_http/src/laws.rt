//! What follows from the definitions of a turn.
ghost use Rattle.feed_http.specs.Laws.{OutcomesAreGiven, StatusesTell};

/// The status of an outcome is 200, 400, 403, 404, 409 or 413; 508, 503 and 507 tell why there is none: that an entry would pass
/// the limit, that the keeper failed at it, or that there was no memory. With the first two nothing was kept, or of a package the
/// entry of its tick; with the last that, none or all.
pub fn statuses_law()
    ensures given { OutcomesAreGiven }
    ensures told { StatusesTell }
{}
