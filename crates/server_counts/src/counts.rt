//! Counts since the start of a server. Each stays at its greatest value once it is there.
ghost use Rattle.std.specs.Prelude.{◌≡◌, IfOk};
ghost use Rattle.server_counts.specs.Tally.{attempts_with, nothing, with_attempt, with_log_fault};

use news_types::{Memory, Moment, Name};
use std::alloc::Global;
use std::marker::Model;

/// Responses of one status.
#[derive(Clone, Copy, Debug, PartialEq, Eq)]
pub struct StatusCount {
    pub status: u16,
    pub count: u64,
}

/// What a provider sent: how many, and the moment of the last.
#[derive(Clone, Copy, PartialEq, Eq)]
pub struct ProviderCount {
    pub provider: Name,
    pub count: u64,
    pub last: Moment,
}

/// Attempts to deliver, by their outcome.
#[derive(Clone, Copy, Debug, PartialEq, Eq)]
pub struct Attempts {
    pub delivered: u64,
    pub link_faults: u64,
    pub no_receipts: u64,
}

impl Attempts {
    /// One more of this outcome.
    fn with(self, outcome: Outcome) -> Attempts
        ensures { result ≡ attempts_with outcome self }
    {
        match outcome {
            Outcome::Delivered => Attempts {
                delivered: self.delivered.saturating_add(1),
                ..self
            },
            Outcome::LinkFault => Attempts {
                link_faults: self.link_faults.saturating_add(1),
                ..self
            },
            Outcome::NoReceipt => Attempts {
                no_receipts: self.no_receipts.saturating_add(1),
                ..self
            },
        }
    }
}

/// What came of an attempt to deliver.
#[derive(Clone, Copy, Debug, PartialEq, Eq)]
pub enum Outcome {
    /// The subscriber acknowledged it.
    Delivered,
    /// The link to the subscriber failed.
    LinkFault,
    /// No receipt came back that acknowledges it.
    NoReceipt,
}

/// What happened since the start of a server.
#[derive(Drop)]
pub struct Counts {
    attempts: Attempts,
    log_faults: u64,
    requests: Vec<StatusCount>,
    ingests: Vec<ProviderCount>,
}

impl Model for Counts {
    ghost use Rattle.server_counts.specs.Tally.{Tally};

    ghost Value = { Tally };

    ghost view = { λ a. record { attempts = a.attempts; log_faults = a.log_faults; requests = a.requests.items; ingests = a.ingests.items } };
}

impl Counts {
    /// Counts of nothing.
    pub fn new(alloc: Global) -> Counts
        ensures { result ≡ nothing }
    {
        Counts {
            attempts: Attempts {
                delivered: 0,
                link_faults: 0,
                no_receipts: 0,
            },
            log_faults: 0,
            requests: Vec::new(alloc),
            ingests: Vec::new(alloc),
        }
    }

    /// Counts a response of this status. After want of memory the counts are as they were.
    pub fn count_response(&mut self, status: u16) -> Result<(), Memory>
        ensures { self.new ≡ record self.old { requests = self.new.requests } }
    {
        match self
            .requests
            .binary_search_by_key(&status, |counted| counted.status)
        {
            Ok(place) => {
                let counted = &mut self.requests[place];
                counted.count = counted.count.saturating_add(1);
            }
            Err(place) => self
                .requests
                .insert(place, StatusCount { status, count: 1 })?,
        }
        Ok(())
    }

    /// Counts something that a provider sent at the moment. After want of memory the counts are as they were.
    pub fn count_ingest(&mut self, provider: Name, moment: Moment) -> Result<(), Memory>
        ensures { self.new ≡ record self.old { ingests = self.new.ingests } }
    {
        match self
            .ingests
            .binary_search_by_key(&provider, |counted| counted.provider)
        {
            Ok(place) => {
                let counted = &mut self.ingests[place];
                counted.count = counted.count.saturating_add(1);
                counted.last = moment;
            }
            Err(place) => self.ingests.insert(
                place,
                ProviderCount {
                    provider,
                    count: 1,
                    last: moment,
                },
            )?,
        }
        Ok(())
    }

    /// Counts an attempt to deliver.
    pub fn count_attempt(&mut self, outcome: Outcome)
        ensures { self.new ≡ with_attempt outcome self.old }
    {
        self.attempts = self.attempts.with(outcome);
    }

    /// Counts a failure of the log.
    pub fn count_log_fault(&mut self)
        ensures { self.new ≡ with_log_fault self.old }
    {
        self.log_faults = self.log_faults.saturating_add(1);
    }

    /// Equal counts.
    pub fn copy(&self) -> Result<Counts, Memory>
        ensures { IfOk result (λ counts. counts ≡ self.now) }
    {
        let alloc = *self.requests.allocator();
        Ok(Counts {
            attempts: self.attempts,
            log_faults: self.log_faults,
            requests: Vec::from_slice(alloc, self.requests.as_slice())?,
            ingests: Vec::from_slice(alloc, self.ingests.as_slice())?,
        })
    }

    /// The attempts to deliver.
    pub fn attempts(&self) -> Attempts
        ensures { result ≡ self.now.attempts }
    {
        self.attempts
    }

    /// How often the log failed.
    pub fn log_faults(&self) -> u64
        ensures { result ≡ self.now.log_faults }
    {
        self.log_faults
    }

    /// The responses, ascending by status.
    pub fn requests(&self) -> &[StatusCount]
        ensures { result.now ≡ self.now.requests }
    {
        self.requests.as_slice()
    }

    /// What providers sent, in byte order of the providers.
    pub fn ingests(&self) -> &[ProviderCount]
        ensures { result.now ≡ self.now.ingests }
    {
        self.ingests.as_slice()
    }
}
