//! What is done in one turn.
ghost use Rattle.std.specs.Prelude.{List};
ghost use Rattle.news_types.specs.declared.entry.Entry.{Entry};
ghost use Rattle.news_types.specs.Books.{Book, onto};
ghost use Rattle.room_lock.specs.Passes.{At, at};

use news_types::StandsFor;

/// What is done to the shared value in one turn. It has its question and its answer as fields.
pub trait Work<T: StandsFor> {
    /// What one turn does: between the work and the value's book with the two numbers beside it
    /// before the turn, and the same three after it.
    ghost does: { Self → At → Self → At → Type 0 };

    /// Works on the value, whose list may only grow: the same entries are put to each book for which
    /// the value stood.
    fn turn(&mut self, room: &mut T)
        requires stands { (b : Book) × T.stands room.old b }
        ensures { (more : List Entry) × ((b : Book) → T.stands room.old b
            → T.stands room.new (onto more b)
            × does self.old (at b (T.faults room.old) (T.used room.old))
            self.new (at (onto more b) (T.faults room.new) (T.used room.new))) };
}
