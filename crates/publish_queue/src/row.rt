//! The entries of a feed.
ghost use Rattle.std.specs.Prelude.{◌≡◌, vec_len};

use news_types::Moment;

/// The publications' numbers, entry after entry, and their releases for the subscriber.
#[derive(Drop)]
pub struct Row {
    pub numbers: Vec<u32>,
    pub releases: Vec<Moment>,
    ghost paired: { vec_len numbers ≡ vec_len releases },
}
