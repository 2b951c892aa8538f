//! Counts that threads share.
use news_types::{Memory, Moment, Name};
use server_counts::{Counts, Outcome};
use std::alloc::Global;
use std::sync::{Mutex, Wait};

/// What a server has counted since its start. Threads share it by reference, and each counts in it what it sees.
///
/// Nothing that is proved rests on a count: no clause says what one is. Where there is no memory for it, something stays
/// uncounted, and nothing else changes.
#[derive(Drop)]
pub struct Watch {
    counts: Mutex<Counts>,
}

impl Watch {
    /// Nothing is counted yet. It takes no memory.
    pub fn new(alloc: Global) -> Watch {
        Watch {
            counts: Mutex::new(Counts::new(alloc)),
        }
    }

    /// Counts a response of this status, or drops it where there is no memory for it.
    pub fn count_response(&self, rt: &impl Wait, status: u16) {
        let _counted = self.counts.lock(rt).count_response(status);
    }

    /// Counts an item that came of a provider at a moment, in seconds, or drops it where there is no memory for it.
    pub fn count_ingest(&self, rt: &impl Wait, provider: Name, moment: Moment) {
        let _counted = self.counts.lock(rt).count_ingest(provider, moment);
    }

    /// Counts an attempt to deliver a frame.
    pub fn count_attempt(&self, rt: &impl Wait, outcome: Outcome) {
        self.counts.lock(rt).count_attempt(outcome);
    }

    /// Counts a fault of the log.
    pub fn count_log_fault(&self, rt: &impl Wait) {
        self.counts.lock(rt).count_log_fault();
    }

    /// What was counted until now, as a copy.
    ///
    /// # Errors
    ///
    /// Where there is no memory for the copy. The counts stay as they are.
    pub fn counts(&self, rt: &impl Wait) -> Result<Counts, Memory> {
        self.counts.lock(rt).copy()
    }
}
