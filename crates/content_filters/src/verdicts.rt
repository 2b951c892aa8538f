//! What the conditions and filters say of one story.
use news_types::Name;

/// The truth of every condition for one story, and then of every filter, both in the order of age, and the global blocks that
/// match it, the oldest first.
#[derive(Drop)]
pub struct Verdicts {
    pub(crate) conditions: Vec<bool>,
    pub(crate) filters: Vec<bool>,
    pub(crate) blocks: Vec<Name>,
}
