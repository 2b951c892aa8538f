//! What a pass knows. These are plain data of the proofs: no value of them is ever made.
use news_types::Entry;
use std::collections::LinkedList;

/// One turn: how long the history was when it began and when it ended, and the value's count of faults
/// and its size at both times.
pub struct Call {
    pub from: u64,
    pub to: u64,
    pub faults: u64,
    pub used: u64,
    pub later_faults: u64,
    pub later_used: u64,
}

/// How far a pass is in a turn.
pub enum Stage {
    /// It has no ticket.
    Resting,
    /// It has a ticket.
    Waiting,
    /// Its ticket is served.
    Turning,
}

/// The fronts and the calls that two passes had when they were joined.
pub struct Meeting {
    pub one: LinkedList<Entry>,
    pub other: LinkedList<Entry>,
    pub one_calls: LinkedList<Call>,
    pub other_calls: LinkedList<Call>,
}

/// All that a pass knows.
pub struct View {
    pub front: LinkedList<Entry>,
    pub calls: LinkedList<Call>,
    pub stage: Stage,
    /// It has a meaning only where the stage is not resting.
    pub ticket: u64,
    /// The last time that it took in another pass.
    pub met: Meeting,
}
