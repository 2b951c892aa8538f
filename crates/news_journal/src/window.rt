//! A part of a file that was read ahead.
ghost use Rattle.std.specs.Prelude.{◌<◌, ◌≤◌, ◌^◌, vec_len};

/// A part of a file that was read ahead.
#[derive(Drop)]
pub struct Window {
    /// Bytes of the file, and behind them any.
    pub(crate) bytes: Vec<u8>,
    /// The place of the first of them.
    pub(crate) from: u64,
    /// How many there are.
    pub(crate) count: usize,
    /// Whether the file ends with them.
    pub(crate) ended: bool,
    ghost within: { count ≤ vec_len bytes },
    ghost size: { vec_len bytes ≤ 2 ^ 23 },
    ghost place: { from < 2 ^ 31 },
}
