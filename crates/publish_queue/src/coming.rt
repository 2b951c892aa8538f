//! The next moment at which something is released.
ghost use Rattle.std.specs.Prelude.{◌≡◌, ℕ, ◌||◌};
ghost use Rattle.news_types.specs.Due.{is_by};
ghost use Rattle.news_types.specs.Legal.{comes_by};
ghost use Rattle.publish_queue.specs.Rows.{live};
ghost use Rattle.publish_queue.specs.Coming.{sooner, some_of_it, first_by, some_feed_by};

use crate::feed::Feed;
use crate::waiting::WaitingList;
use news_types::{Due, Moment};

/// The earlier moment, if any.
pub fn sooner_of(a: Option<Moment>, b: Option<Moment>) -> Option<Moment>
    ensures { result ≡ sooner a b }
{
    match (a, b) {
        (Some(a), Some(b)) => Some(a.min(b)),
        (Some(a), None) => Some(a),
        (None, b) => b,
    }
}

/// That moment, or the first behind `moment` at which a publication is released, or is to one of
/// those to whom it is due.
pub fn next_with(
    next: Option<Moment>,
    release: Moment,
    due: &[Due],
    moment: Moment,
) -> Option<Moment>
    ensures { (n : ℕ) → is_by n result ≡ (some_of_it moment n release due.now || is_by n next) }
{
    let mut first = sooner_of(next, behind(moment, release));
    for it in due {
        first = sooner_of(first, behind(moment, it.release));
    }
    first
}

// The release, if it comes behind the moment.
fn behind(moment: Moment, release: Moment) -> Option<Moment>
    ensures { (n : ℕ) → is_by n result ≡ comes_by moment n release }
{
    if release > moment {
        Some(release)
    } else {
        None
    }
}

/// The first release of what waits, for itself or for somebody.
pub fn next_of(waiting: &WaitingList, feeds: &[Feed]) -> Option<Moment>
    ensures { (n : ℕ) → is_by n result ≡ (first_by n (live waiting.now.releases.items) || some_feed_by n feeds.now) }
{
    let mut first = waiting.next();
    for feed in feeds {
        first = sooner_of(first, feed.waiting.next());
    }
    first
}
