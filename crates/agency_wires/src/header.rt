//! What a header line says.

ghost use Rattle.std.specs.Prelude.{◌≡◌, ◌≤◌, IfNone, IfSome, true, false, length};
ghost use Rattle.agency_wires.specs.Header.{is_letter_or_digit, digits_at_end, letters_part, digits_part, begins_with_letter, has_width, is_joined, is_parted, has_header, source, number, behind_number, is_category_letter, category_in, is_urgency, urgency_in, urgency, category};
ghost use Rattle.agency_wires.specs.Parts.{word, behind_word};
ghost use Rattle.std.specs.Char.{is_ascii_alphabetic, is_ascii_digit};
ghost use Rattle.std.specs.List.{list_all, prefix_len};
ghost use Rattle.text7901.specs.Fields.{lead};

use crate::parts::{first_characters, next_word};

/// The most digits of a number, characters of a source and of a category.
const WIDTH: usize = 16;
/// The most letters of a category that are kept.
const MOST_CATEGORY: usize = 3;

/// Source and number of a header line, and what follows them.
#[derive(Clone, Copy)]
pub struct Header<'a> {
    pub source: &'a [char],
    pub number: &'a [char],
    pub rest: &'a [char],
}

/// Source and number of a header line: none where it does not begin with them.
#[tactic(auto, unfolding(crate::specs::Header::has_header, crate::specs::Header::source, crate::specs::Header::number, crate::specs::Header::behind_number))]
pub fn header_of(line: &[char]) -> Option<Header<'_>>
    ensures none { IfNone result (has_header line.now ≡ false) }
    ensures some { IfSome result (λ header. has_header line.now ≡ true) }
    ensures source { IfSome result (λ header. header.source.now ≡ source line.now) }
    ensures number { IfSome result (λ header. header.number.now ≡ number line.now) }
    ensures rest { IfSome result (λ header. header.rest.now ≡ behind_number line.now) }
{
    let (first, rest) = next_word(line);
    if is_joined(first) {
        let (source, number) = split_number(first);
        return Some(Header {
            source,
            number,
            rest,
        });
    }
    let (second, behind) = next_word(rest);
    if is_parted(first, second) {
        Some(Header {
            source: first,
            number: second,
            rest: behind,
        })
    } else {
        None
    }
}

pub fn is_letter_or_digit(letter: char) -> bool
    ensures { result ≡ is_letter_or_digit letter }
{
    letter.is_ascii_alphabetic() || letter.is_ascii_digit()
}

/// How many digits a word ends with, at most 16.
fn digits_at_end(word: &[char]) -> usize
    ensures value { result ≡ digits_at_end word.now }
    ensures bound { result ≤ length word.now }
{
    word.iter()
        .rev()
        .take(WIDTH)
        .take_while(|letter| letter.is_ascii_digit())
        .count()
}

/// What stands before the digits at its end, and these, at most 16.
fn split_number(word: &[char]) -> (&[char], &[char])
    ensures front { result.0.now ≡ letters_part word.now }
    ensures back { result.1.now ≡ digits_part word.now }
{
    word.split_at(word.len() - digits_at_end(word))
}

/// Whether these are 1 to 16 characters.
fn has_width(word: &[char]) -> bool
    ensures { result ≡ has_width word.now }
{
    1 <= word.len() && word.len() <= WIDTH
}

fn begins_with_letter(word: &[char]) -> bool
    ensures { result ≡ begins_with_letter word.now }
{
    match word {
        [first, ..] => first.is_ascii_alphabetic(),
        [] => false,
    }
}

fn all_letters(word: &[char]) -> bool
    ensures { result ≡ list_all is_ascii_alphabetic word.now }
{
    word.iter().all(|letter| letter.is_ascii_alphabetic())
}

fn all_digits(word: &[char]) -> bool
    ensures { result ≡ list_all is_ascii_digit word.now }
{
    word.iter().all(|letter| letter.is_ascii_digit())
}

fn all_letters_or_digits(word: &[char]) -> bool
    ensures { result ≡ list_all is_letter_or_digit word.now }
{
    word.iter().all(|letter| is_letter_or_digit(*letter))
}

fn all_category_letters(word: &[char]) -> bool
    ensures { result ≡ list_all is_category_letter word.now }
{
    word.iter().all(|letter| is_category_letter(*letter))
}

/// Whether the word is source and number.
fn is_joined(word: &[char]) -> bool
    ensures { result ≡ is_joined word.now }
{
    let (source, number) = split_number(word);
    all_letters_or_digits(word)
        && begins_with_letter(word)
        && has_width(source)
        && has_width(number)
}

/// Whether the words are source and number.
fn is_parted(first: &[char], second: &[char]) -> bool
    ensures { result ≡ is_parted first.now second.now }
{
    all_letters(first) && has_width(first) && all_digits(second) && has_width(second)
}

/// The urgency, 0 where none is given.
#[tactic(auto, unfolding(crate::specs::Header::urgency))]
pub fn urgency_of(rest: &[char]) -> u8
    ensures value { result ≡ urgency rest.now }
    ensures bound { result ≤ 9 }
{
    let (word, _) = next_word(rest);
    urgency_in(word)
}

fn urgency_in(word: &[char]) -> u8
    ensures value { result ≡ urgency_in word.now }
    ensures bound { result ≤ 9 }
{
    match word {
        [digit] if digit.is_ascii_digit() => (u32::from(*digit) - u32::from('0')) as u8,
        _ => 0,
    }
}

fn is_urgency(word: &[char]) -> bool
    ensures { result ≡ is_urgency word.now }
{
    match word {
        [digit] => digit.is_ascii_digit(),
        _ => false,
    }
}

/// The letters of the category that are kept: none where none is given, or no urgency before it.
#[tactic(auto, unfolding(crate::specs::Header::category))]
pub fn category_of(rest: &[char]) -> &[char]
    ensures { result.now ≡ category rest.now }
{
    let (word, rest) = next_word(rest);
    if is_urgency(word) {
        let (word, _) = next_word(rest);
        category_in(word)
    } else {
        &[]
    }
}

fn is_category_letter(letter: char) -> bool
    ensures { result ≡ is_category_letter letter }
{
    is_letter_or_digit(letter) || letter == '-' || letter == '/'
}

fn category_in(word: &[char]) -> &[char]
    ensures { result.now ≡ category_in word.now }
{
    if all_category_letters(word) && word.len() <= WIDTH {
        first_letters(word)
    } else {
        &[]
    }
}

/// The letters that a word begins with, at most three.
fn first_letters(word: &[char]) -> &[char]
    ensures { result.now ≡ lead is_ascii_alphabetic 3 word.now }
{
    let (letters, _) = word.split_at(leading_letters(first_characters(word, MOST_CATEGORY)));
    letters
}

/// How many letters these begin with.
fn leading_letters(word: &[char]) -> usize
    ensures value { result ≡ prefix_len is_ascii_alphabetic word.now }
    ensures bound { result ≤ length word.now }
{
    word.iter()
        .take_while(|letter| letter.is_ascii_alphabetic())
        .count()
}
