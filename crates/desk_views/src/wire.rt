//! What a provider last sent for an item.
use news_types::{Moment, PubStatus};

/// The embargo, 0 where there is none, and the status of the last ingest that changed an item.
#[derive(Clone, Copy)]
pub struct Wire {
    pub embargo: Moment,
    pub status: PubStatus,
}
