//! The words that start a server.
ghost use Rattle.std.specs.Prelude.{◌≡◌};
ghost use Rattle.std.specs.Option.{option_map};
ghost use Rattle.command_words.specs.Words.{number_of, service_of, serving_of, workers_of};
ghost use Rattle.command_words.specs.Words as spec;

use crate::words::{are_pairs, is_option, read_number};
use news_types::Text;

/// The most workers of a server.
const MOST_WORKERS: u32 = 16;

/// What a server is to do: `serve STORE ADDRESS WORKERS` and pairs of a NAME and an ADDRESS.
#[derive(Clone, Copy)]
pub struct Serving<'a> {
    /// Where it listens: a host and a port.
    pub address: &'a Text,
    /// How many workers push the feeds, 1 to 16.
    pub workers: u32,
    /// The receivers, each a name and behind it its address, no name twice.
    pub receivers: &'a [Text],
}

/// What these words ask a server for, if they are the command `serve`.
pub fn read_serving(words: &[Text]) -> Option<Serving<'_>>
    ensures { option_map service_of result ≡ serving_of words.now }
{
    let [verb, store, address, workers, receivers @ ..] = words else {
        return None;
    };
    if is_option(store.as_str()) || is_option(address.as_str()) {
        return None;
    }
    serving_by(verb.as_str(), address, workers.as_str(), receivers)
}

/// What this word, a store and these words ask a server for.
fn serving_by<'a>(
    verb: &str,
    address: &'a Text,
    workers: &str,
    receivers: &'a [Text],
) -> Option<Serving<'a>>
    ensures { option_map service_of result ≡ spec.serving_by verb.now address.now workers.now receivers.now }
{
    if verb != "serve" || !are_pairs(receivers) {
        return None;
    }
    Some(Serving {
        address,
        workers: read_workers(workers)?,
        receivers,
    })
}

/// How many workers the word asks for, if it is a number from 1 to 16.
fn read_workers(word: &str) -> Option<u32>
    ensures { result ≡ workers_of (number_of word.now) }
{
    let workers = read_number(word)?;
    if workers == 0 || workers > MOST_WORKERS {
        return None;
    }
    Some(workers)
}
