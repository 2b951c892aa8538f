//! Words of a command line that a command takes as they stand.
ghost use Rattle.std.specs.Prelude.{◌≡◌};

use news_types::Text;
use std::marker::Model;

/// A word of a command line, as it stands there. A contract sees it as its bytes.
#[derive(Drop)]
pub struct Word<'a> {
    text: &'a Text,
}

impl<'a> Model for Word<'a> {
    ghost use Rattle.std.specs.Prelude.{ℕ, List};

    ghost Value = { List ℕ };

    ghost view = { λ a. a.text.now };
}

impl<'a> Word<'a> {
    /// The word that this text is.
    pub(crate) fn of(text: &'a Text) -> Word<'a>
        ensures { result ≡ text.now }
    {
        Word { text }
    }

    /// Its characters.
    pub fn as_str(&self) -> &str
        ensures { result.now ≡ self.now }
    {
        self.text.as_str()
    }
}
