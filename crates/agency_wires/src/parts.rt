//! Parts of some characters.

ghost use Rattle.std.specs.Prelude.{◌≡◌, ◌<◌, ◌==◌, IfOk, IfSome, length, take, count_by, nat_le};
ghost use Rattle.std.specs.List.{position};
ghost use Rattle.text7901.specs.Fields.{before, behind_byte, without_last_lf, utf8, fitting};
ghost use Rattle.agency_wires.specs.Parts.{blank, trim, trim_front, front_word, behind_front_word, word, behind_word, line, behind_line, is_within};

use news_types::{Memory, Text};
use std::alloc::Global;

fn is_blank(letter: char) -> bool
    ensures { result ≡ blank letter }
{
    letter == ' ' || letter == '\t' || letter == '\n'
}

/// Without the leading blanks.
pub fn front_trimmed(told: &[char]) -> &[char]
    ensures { result.now ≡ trim_front told.now }
{
    let mut rest = told;
    while let [first, tail @ ..] = rest {
        if !is_blank(*first) {
            break;
        }
        rest = tail;
    }
    rest
}

/// Without the blanks at both ends.
pub fn trimmed(told: &[char]) -> &[char]
    ensures { result.now ≡ trim told.now }
{
    let mut rest = front_trimmed(told);
    while let [front @ .., last] = rest {
        if !is_blank(*last) {
            break;
        }
        rest = front;
    }
    rest
}

fn place_of(told: &[char], stop: char) -> Option<usize>
    ensures place { result ≡ position (λ c. c == stop) told.now }
    ensures bound { IfSome result (λ i. i < length told.now) }
{
    told.iter().position(|letter| *letter == stop)
}

/// What stands before and behind the first LF: all and nothing where there is none.
pub fn split_line(told: &[char]) -> (&[char], &[char])
    ensures front { result.0.now ≡ before 10 told.now }
    ensures back { result.1.now ≡ behind_byte 10 told.now }
{
    match place_of(told, '\n') {
        Some(i) => (&told[..i], &told[i + 1..]),
        None => (told, &[]),
    }
}

/// The first line that is not empty, without the blanks at its ends, and what follows it.
#[tactic(auto, unfolding(crate::specs::Parts::line, crate::specs::Parts::behind_line))]
pub fn next_line(told: &[char]) -> (&[char], &[char])
    ensures front { result.0.now ≡ line told.now }
    ensures back { result.1.now ≡ behind_line told.now }
{
    let (first, rest) = split_line(front_trimmed(told));
    (trimmed(first), rest)
}

/// The next word, and what follows it.
#[tactic(auto, unfolding(crate::specs::Parts::word, crate::specs::Parts::behind_word))]
pub fn next_word(told: &[char]) -> (&[char], &[char])
    ensures front { result.0.now ≡ word told.now }
    ensures back { result.1.now ≡ behind_word told.now }
{
    split_word(front_trimmed(told))
}

/// The word that these begin with, and what follows it.
fn split_word(told: &[char]) -> (&[char], &[char])
    ensures front { result.0.now ≡ front_word told.now }
    ensures back { result.1.now ≡ behind_front_word told.now }
{
    for (i, letter) in told.iter().enumerate() {
        if is_blank(*letter) {
            return told.split_at(i);
        }
    }
    (told, &[])
}

/// The first characters, at most so many.
pub fn first_characters(told: &[char], most: usize) -> &[char]
    ensures { result.now ≡ take most told.now }
{
    &told[..most.min(told.len())]
}

/// Without one LF at the end.
pub fn without_last_lf(told: &[char]) -> &[char]
    ensures { result.now ≡ without_last_lf told.now }
{
    let [front @ .., last] = told else {
        return told;
    };
    if *last == '\n' { front } else { told }
}

/// Whether they have at most so many bytes as UTF-8.
pub fn is_within(most: usize, told: &[char]) -> bool
    ensures { result ≡ is_within most told.now }
{
    if told.len() <= most && wide_count(told) <= (most - told.len()) / 3 {
        return true;
    }
    let mut room = most;
    for letter in told {
        if letter.len_utf8() > room {
            return false;
        }
        room -= letter.len_utf8();
    }
    true
}

/// How many of them have more than one byte as UTF-8. None has more than four.
fn wide_count(told: &[char]) -> usize
    ensures { result ≡ count_by (λ c. nat_le 128 c) told.now }
{
    told.iter().filter(|letter| **letter >= '\u{80}').count()
}

/// The characters as UTF-8.
pub fn utf8_text(alloc: Global, told: &[char]) -> Result<Text, Memory>
    ensures { IfOk result (λ text. text ≡ utf8 told.now) }
{
    let mut string = String::with_capacity(alloc, told.len())?;
    for letter in told {
        string.push(*letter)?;
    }
    Ok(Text::of(string))
}

/// The characters from the front on that have at most so many bytes together as UTF-8.
pub fn fitting_text(alloc: Global, most: usize, told: &[char]) -> Result<Text, Memory>
    ensures { IfOk result (λ text. text ≡ fitting most told.now) }
{
    let mut string = String::with_capacity(alloc, most.min(told.len()))?;
    let mut room = most;
    for letter in told {
        if letter.len_utf8() > room {
            break;
        }
        room -= letter.len_utf8();
        string.push(*letter)?;
    }
    Ok(Text::of(string))
}
