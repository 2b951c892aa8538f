//! The rule of the table under the lock, and what each move tells the seat that makes it.
ghost use Rattle.std.specs.Prelude.{ℕ, List};
ghost use Rattle.news_types.specs.declared.entry.Entry.{Entry};
ghost use Rattle.news_types.specs.Books.{Book};
ghost use Rattle.room_lock.specs.Views.{blank, newcomer, together};
ghost use Rattle.room_lock.specs.Rules.{Since, Kept, drew, looked, counted_in, passed, recalled};

use crate::view::View;
use atomic_table::{Join, Play, Split, TableRule};
use news_types::StandsFor;
use std::marker::{Brand, PhantomData};
use std::snapshot::Snapshot;

/// One history, of which each pass has seen a beginning. The key is the value with which the lock was
/// made.
pub struct OneHistory;

impl<T: StandsFor> TableRule<Option<T>, View, Snapshot<T>> for OneHistory {
    ghost holds = { λ key. Kept (Since T.stands (T.stands key.value)) };

    ghost first = { λ _. blank };
}

/// Draw: the seat that wins has the number as its ticket.
pub struct Draw;

impl<T> Play<Option<T>, View> for Draw {
    ghost then = { drew };
}

/// The books for which the value stood when the lock was made. A move can't read the rule's key, so
/// each call of `look` picks them.
pub trait Opening {
    ghost books: { Book → Type 0 };
}

impl Opening for Brand {
    ghost books = { λ _. Unit {0} };
}

/// Look: the seat whose ticket is served takes the value, and has seen the whole history.
pub struct Look<O> {
    marker: PhantomData<O>,
}

impl<T: StandsFor, O: Opening> Play<Option<T>, View> for Look<O> {
    ghost then = { looked (Since T.stands O.books) };
}

/// What is known of the list that a turn leaves, and the value's count of faults and its size before
/// and after the turn. Each call of `count` picks it.
pub trait Finding {
    ghost holds: { List Entry → Type 0 };

    ghost before: { ℕ × ℕ };

    ghost after: { ℕ × ℕ };
}

impl Finding for Brand {
    ghost holds = { λ _. Unit {0} };

    ghost before = { (0, 0) };

    ghost after = { (0, 0) };
}

/// Count: the history is longer by what the turn added, and the seat has one call more.
pub struct Count<F> {
    marker: PhantomData<F>,
}

impl<T, F: Finding> Play<Option<T>, View> for Count<F> {
    ghost then = { counted_in F.holds F.before F.after };
}

/// Pass on: the value is back and the seat has no ticket.
pub struct PassOn;

impl<T> Play<Option<T>, View> for PassOn {
    ghost then = { passed };
}

/// Split: the new seat copies the front and has no calls.
pub struct Divide;

impl Split<View> for Divide {
    ghost left = { λ v. v };

    ghost right = { newcomer };
}

/// Join: the seat has the longer front and the calls of both, and the other seat is spent.
pub struct Unite;

impl Join<View> for Unite {
    ghost both = { together };

    ghost spent = { blank };
}

/// The second look of a join, which tells how the two fronts and the two lists of calls lie.
pub struct Recall;

impl<T> Play<Option<T>, View> for Recall {
    ghost then = { recalled };
}
