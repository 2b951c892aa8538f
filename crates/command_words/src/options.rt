//! The options of a command.
ghost use Rattle.std.specs.Prelude.{◌≡◌, ◌≤◌, Some};
ghost use Rattle.command_words.specs.Words.{Any, no_options, number_of, options_count, options_of, seconds_of};
ghost use Rattle.command_words.specs.Words as spec;

use crate::words::{is_option, read_number};
use news_types::Text;

/// The most seconds between two times: a day.
const MOST_SECONDS: u32 = 86400;

/// What stands between a command's name and its other words.
#[derive(Clone, Copy, Debug, PartialEq, Eq)]
pub struct Options {
    /// `--wait`: the command waits for its store while another program has it.
    pub waits: bool,
    /// `--beside`: the command reads a store that is being served.
    pub beside: bool,
    /// `--key FILE`: the place of FILE among the words, the first of which is 0.
    pub key: Option<usize>,
    /// `--every SECONDS`: the command begins anew behind so many seconds, 1 to 86400.
    pub every: Option<u32>,
}

/// The options of these words, which stand directly behind the command's name, in any order: nothing where one stands twice.
pub fn read_options(words: &[Text]) -> Option<Options>
    ensures { result ≡ options_of words.now }
{
    let [_, words @ ..] = words else {
        return None;
    };
    options_behind(words, Options::none())
}

/// The options at the front of these words, behind those that were found.
fn options_behind(words: &[Text], found: Options) -> Option<Options>
    ensures { result ≡ spec.options_behind found Any words.now }
{
    let [word, words @ ..] = words else {
        return Some(found);
    };
    match word.as_str() {
        "--wait" if found.waits => None,
        "--beside" if found.beside => None,
        "--key" if found.key.is_some() => None,
        "--every" if found.every.is_some() => None,
        "--wait" => options_behind(
            words,
            Options {
                waits: true,
                ..found
            },
        ),
        "--beside" => options_behind(
            words,
            Options {
                beside: true,
                ..found
            },
        ),
        "--key" => match words {
            [file, words @ ..] if !is_option(file.as_str()) => {
                options_behind(words, found.with_key())
            }
            _ => None,
        },
        "--every" => match words {
            [seconds, words @ ..] => {
                let seconds = read_seconds(seconds.as_str())?;
                options_behind(words, found.with_every(seconds))
            }
            _ => None,
        },
        _ => Some(found),
    }
}

/// How many seconds the word asks for, if it is a number from 1 to 86400.
fn read_seconds(word: &str) -> Option<u32>
    ensures { result ≡ seconds_of (number_of word.now) }
{
    let seconds = read_number(word)?;
    if seconds == 0 || seconds > MOST_SECONDS {
        return None;
    }
    Some(seconds)
}

impl Options {
    /// No option.
    pub fn none() -> Options
        ensures { result ≡ no_options }
    {
        Options {
            waits: false,
            beside: false,
            key: None,
            every: None,
        }
    }

    /// How many words they are.
    pub fn count(self) -> usize
        ensures count { result ≡ options_count self }
        ensures few { result ≤ 6 }
    {
        let key = match self.key {
            Some(_) => 2,
            None => 0,
        };
        let every = match self.every {
            Some(_) => 2,
            None => 0,
        };
        self.waits as usize + self.beside as usize + key + every
    }

    /// These, and `--key` and its FILE behind them.
    fn with_key(self) -> Options
        ensures { result ≡ spec.with_key self }
    {
        Options {
            key: Some(self.count() + 2),
            ..self
        }
    }
    /// These, and `--every` and so many seconds behind them.
    fn with_every(self, seconds: u32) -> Options
        ensures { result ≡ spec.with_every self (Some seconds) }
    {
        Options {
            every: Some(seconds),
            ..self
        }
    }
}
