//! Values that stand for a store and its list of entries.
ghost use Rattle.std.specs.Prelude.{◌≡◌, ℕ, length};
ghost use Rattle.news_types.specs.Books.{Book};

/// A value that stands for a store and its list of entries.
pub trait StandsFor {
    /// The value stands for this book.
    ghost stands: { Self → Book → Type 0 };

    /// How often its keeper has failed.
    ghost faults: { Self → ℕ };

    /// How many bytes its keeper uses.
    ghost used: { Self → ℕ };

    /// The length of the list.
    fn count(&self) -> u64
        ensures { (b : Book) → stands self.now b → result ≡ length b.list };
}
