//! The right to take turns.
ghost use Rattle.std.specs.Prelude.{◌≡◌, length};
ghost use Rattle.room_lock.specs.Views.{view_of, rank};

use crate::view::View;
use atomic_table::Badge;

/// The right to take turns with one lock. It has no bytes.
///
/// Contracts see its front, which is the part of the history that its owner has seen, and its calls,
/// which are the turns that it took. A pass that is dropped takes nothing with it: it rests between
/// turns, so no ticket is lost.
#[derive(Drop)]
pub struct Pass {
    pub(crate) badge: Badge<View>,
    pub ghost one: { length badge.views ≡ 1 },
    pub ghost rests: { rank (view_of badge.views).stage ≡ 0 },
}
