//! The words that hold a story back.

ghost use Rattle.std.specs.Prelude.{◌≡◌, false};
ghost use Rattle.agency_wires.specs.HeldWords.{run, is_word, is_held_word, has_held_word};

use crate::header::is_letter_or_digit;

/// Whether a word stands here, in any case, that holds a story back: an embargo or a kill.
pub fn has_held_word(told: &[char]) -> bool
    ensures { result ≡ has_held_word false told.now }
{
    let mut inside = false;
    for (i, letter) in told.iter().enumerate() {
        if !inside && is_held_word(run(&told[i..])) {
            return true;
        }
        inside = is_letter_or_digit(*letter);
    }
    false
}

/// The letters and digits that these begin with.
fn run(told: &[char]) -> &[char]
    ensures { result.now ≡ run told.now }
{
    for (i, letter) in told.iter().enumerate() {
        if !is_letter_or_digit(*letter) {
            return &told[..i];
        }
    }
    told
}

fn is_held_word(word: &[char]) -> bool
    ensures { result ≡ is_held_word word.now }
{
    is_word(word, b"EMBARGO")
        || is_word(word, b"EMBARGOED")
        || is_word(word, b"SPERRFRIST")
        || is_word(word, b"KILL")
        || is_word(word, b"AUFHEBUNG")
        || is_word(word, b"ANNULE")
        || is_word(word, b"ANNULATION")
}

/// Whether the word in upper case is this one.
fn is_word(word: &[char], upper: &[u8]) -> bool
    ensures { result ≡ is_word word.now upper.now }
{
    let mut rest = word;
    for byte in upper {
        let [first, tail @ ..] = rest else {
            return false;
        };
        if first.to_ascii_uppercase() != char::from(*byte) {
            return false;
        }
        rest = tail;
    }
    rest.is_empty()
}
