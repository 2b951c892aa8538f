//! What is prepared before it is kept.
use crate::callers::Last;
use desk_records::{DueChange, WireChange};
use news_types::{Denial, Name, Reply};
use rule_tables::{PlaceChange, RuleChange};
use story_tables::Parts;

/// What an entry does to items, publications and feeds, and to the record of what is due, with the memory for it taken.
#[derive(Drop)]
pub(crate) struct StoryChange {
    pub(crate) parts: Parts,
    pub(crate) dues: DueChange,
}

/// A request that is accepted, with the memory for it taken.
#[derive(Drop)]
pub struct RequestChange {
    pub(crate) parts: Parts,
    pub(crate) dues: DueChange,
    pub(crate) rules: RuleChange,
    pub(crate) stops: bool,
    pub(crate) caller: Name,
    pub(crate) last: Last,
}

/// An ingest that is accepted, with the memory for it taken.
#[derive(Drop)]
pub struct IngestChange {
    pub(crate) parts: Parts,
    pub(crate) dues: DueChange,
    pub(crate) wires: WireChange,
    /// The item that it makes, if it makes one.
    pub(crate) place: Option<PlaceChange>,
}

/// An entry that is accepted, with the memory for it taken. Dropped, it changes nothing.
#[derive(Drop)]
pub enum Change {
    Request(RequestChange),
    Ingest(IngestChange),
}

/// What an act is answered before it is kept.
#[derive(Drop)]
pub enum Prepared {
    /// It is accepted: `commit` keeps it, and takes no memory.
    Change(Change),
    /// It is done and keeps no entry.
    Settled(Reply),
    /// It is the caller's last request once more, with the reply that was given.
    Repeat(Reply),
    /// It is denied, for the first reason in their order.
    Denied(Denial),
    /// There is no memory for it.
    Memory,
}
