//! The tokens of a text.
ghost use Rattle.std.specs.Prelude.{◌≡◌, ◌==◌, ◌&&◌, [], ◌∷◌, length, MatchOption};
ghost use Rattle.archive_query.specs.Tokens as spec;
ghost use Rattle.archive_query.specs.Tokens.{tokens, joined, IsFirst};

use std::marker::Model;

/// Where a byte of a token stands.
#[derive(Clone, Copy, Debug)]
pub(crate) enum Place {
    Start,
    Plain,
    Quoted,
    Escaped,
}

/// Where the byte behind this one stands.
fn place_after(place: Place, byte: u8) -> Place
    ensures { result ≡ spec.place_after place byte }
{
    match place {
        Place::Start => {
            if byte == b'"' {
                Place::Quoted
            } else {
                Place::Plain
            }
        }
        Place::Plain => Place::Plain,
        Place::Quoted => match byte {
            b'"' => Place::Plain,
            b'\\' => Place::Escaped,
            _ => Place::Quoted,
        },
        Place::Escaped => Place::Quoted,
    }
}

/// Whether a space there ends the token.
fn is_outside(place: Place) -> bool
    ensures { result ≡ spec.is_outside place }
{
    match place {
        Place::Start | Place::Plain => true,
        Place::Quoted | Place::Escaped => false,
    }
}

/// Whether the token ends before this byte, which stands there.
fn ends_token(place: Place, byte: u8) -> bool
    ensures { result ≡ (byte == 32 && spec.is_outside place) }
{
    byte == b' ' && is_outside(place)
}

/// How many bytes the first token of a text has.
fn first_len(text: &[u8]) -> usize
    ensures { IsFirst text.now result }
{
    let mut place = Place::Start;
    for (i, byte) in text.iter().enumerate() {
        if ends_token(place, *byte) {
            return i;
        }
        place = place_after(place, *byte);
    }
    text.len()
}

/// The tokens of a text that are still to come.
#[derive(Drop)]
pub(crate) struct Tokens<'a> {
    rest: Option<&'a str>,
}

impl<'a> Model for Tokens<'a> {
    ghost use Rattle.std.specs.Prelude.{ℕ, List};
    ghost use Rattle.std.specs.Option.{option_copied};
    ghost use Rattle.archive_query.specs.Tokens.{tokens_left};

    ghost Value = { List (List ℕ) };

    ghost view = { λ t. tokens_left (option_copied t.rest) };
}

impl<'a> Tokens<'a> {
    /// Those of this text.
    pub(crate) fn of(text: &'a str) -> Tokens<'a>
        ensures { result ≡ tokens text.now }
    {
        Tokens { rest: Some(text) }
    }

    /// How many bytes they are, with the spaces between them.
    pub(crate) fn len(&self) -> usize
        ensures { result ≡ length (joined self.now) }
    {
        match self.rest {
            Some(rest) => rest.len(),
            None => 0,
        }
    }

    /// The next one.
    pub(crate) fn next(&mut self) -> Option<&'a str>
        ensures { MatchOption result ((self.old ≡ []) × (self.new ≡ [])) (λ token. self.old ≡ token.now ∷ self.new) }
    {
        let rest = self.rest?;
        let len = first_len(rest.as_bytes());
        if len == rest.len() {
            self.rest = None;
            return Some(rest);
        }
        self.rest = Some(&rest[len + 1..]);
        Some(&rest[..len])
    }
}
