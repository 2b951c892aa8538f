//! What is told of a connection.
use news_types::Bytes;

/// A connection as a door gave it.
#[derive(Drop)]
pub struct Opened {
    /// The bytes of its input.
    pub input: Bytes,
    /// How often its input had failed by then.
    pub input_faults: u64,
    /// How often its output had failed by then.
    pub output_faults: u64,
}
