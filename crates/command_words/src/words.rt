//! The words of a command line.
ghost use Rattle.std.specs.Prelude.{◌≡◌};
ghost use Rattle.std.specs.Char.{is_ascii_digit};
ghost use Rattle.std.specs.List.{list_all};
ghost use Rattle.std.specs.Option.{option_map};
ghost use Rattle.uuid.specs.Text.{parsed};
ghost use Rattle.command_words.specs.declared.words.Job.TheVariants.{Ask, Audit, Contents, Digest, Import, Init, Receive, StandIn};
ghost use Rattle.command_words.specs.Words.{archive_of, drill_of, feed_of, format_of, ingest_of, job_of, name_of, number_of, package_of, place_of, seed_of, ship_of, why_of};
ghost use Rattle.command_words.specs.Words as spec;

use crate::word::Word;
use news_types::{Name, Text};
use uuid::Uuid;

/// The most stories of a drill.
const MOST_STORIES: u32 = 100_000;

/// What the numbers of entries are below: 2^48.
const PLACES: u64 = 281_474_976_710_656;

/// The format of what a provider sends.
#[derive(Clone, Copy, Debug, PartialEq, Eq)]
pub enum IngestFormat {
    /// `7901`: a wire of IPTC 7901.
    Wire,
    /// `ninjs`: one item of ninjs 1.
    Item,
    /// `7901-any`: a wire as agencies send them.
    AgencyWire,
    /// `ninjs-any`: an item or a list of items as agencies send them.
    AgencyItems,
}

/// What a command line asks for.
#[derive(Drop)]
pub enum Job<'a> {
    /// To make an empty log for the store of this identifier.
    Init(Uuid),
    /// To answer the lines of the input.
    Batch,
    /// To take in what the input has, in this format, from this provider.
    Ingest {
        format: IngestFormat,
        provider: Name,
    },
    /// To add the subscribers of the table that the input is, as requests of this caller.
    Import(Name),
    /// To publish the package that the input is, as this caller's request of this number.
    Package {
        caller: Name,
        number: u64,
    },
    /// To release what waits, and report this subscriber's feed behind its first entries, so many.
    Feed {
        subscriber: Name,
        after: u32,
    },
    /// To release what waits, and report all feeds.
    Queue,
    /// To tell which publications the query finds, behind so many pages.
    Archive {
        page: u32,
        query: Word<'a>,
    },
    /// To tell what the publication of this number holds.
    Contents(u32),
    /// To write a line for each entry of the list behind its first ones, so many.
    Audit(u64),
    /// To answer the questions of the input at the first entries of the list, so many.
    Ask(u64),
    /// To tell the digest of the first entries of the list, so many.
    Digest(u64),
    /// To tell each limit of the store, and how much of it is used.
    Limits,
    /// To tell why the publication of this number is due to this subscriber or not, and what became of it.
    Why {
        publication: u32,
        subscriber: Name,
    },
    /// To push what is due over the links to receivers.
    Drain,
    /// To take the frames of the input as the receiver of this name.
    Receive(Name),
    /// To ship the records of the list to the standby of this name.
    Ship(Name),
    /// To take the records of the input as the standby of this store.
    StandIn(Uuid),
    /// To drill a newsroom in memory with so many stories, drawn from this seed.
    Drill {
        stories: u32,
        seed: u64,
    },
    /// To open the log, and tell what it holds.
    Check,
    /// To let the side take what only the log has, and empty the log.
    Pack,
}

/// What these words ask for, if they are a command.
pub fn read_words(words: &[Text]) -> Option<Job<'_>>
    ensures { result ≡ job_of words.now }
{
    let [verb, first, rest @ ..] = words else {
        return None;
    };
    if is_option(first.as_str()) {
        return None;
    }
    if verb.as_str() == "drain" {
        return drain_job(rest);
    }
    if verb.as_str() == "drill" {
        return drill_job(first.as_str(), rest);
    }
    job_by(verb.as_str(), rest)
}

/// Whether a word begins as an option does.
pub(crate) fn is_option(word: &str) -> bool
    ensures { result ≡ spec.is_option word.now }
{
    word.as_bytes().starts_with(b"--")
}

/// What this word, a store and up to two words more ask for.
fn job_by<'a>(verb: &str, words: &'a [Text]) -> Option<Job<'a>>
    ensures { result ≡ spec.job_by verb.now words.now }
{
    match words {
        [] => short_job(verb),
        [word] => long_job(verb, word.as_str()),
        [first, second] => wide_job(verb, first.as_str(), second),
        _ => None,
    }
}

/// To push what is due, if these are the names of receivers and their addresses by turns, no name twice.
fn drain_job<'a>(pairs: &[Text]) -> Option<Job<'a>>
    ensures { result ≡ spec.drain_job pairs.now }
{
    if are_pairs(pairs) {
        Some(Job::Drain)
    } else {
        None
    }
}

/// Whether these are names and addresses by turns, no name twice.
pub(crate) fn are_pairs(words: &[Text]) -> bool
    ensures { result ≡ spec.are_pairs words.now }
{
    match words {
        [] => true,
        [name, address, pairs @ ..] => {
            Name::read(name.as_str()).is_some()
                && !is_option(address.as_str())
                && !names(pairs, name)
                && are_pairs(pairs)
        }
        _ => false,
    }
}

/// Whether one of these pairs has this name.
fn names(pairs: &[Text], name: &Text) -> bool
    ensures { result ≡ spec.names pairs.now name.now }
{
    match pairs {
        [other, _, pairs @ ..] => other.as_str() == name.as_str() || names(pairs, name),
        _ => false,
    }
}

/// To drill so many stories with a seed, if these are the two numbers.
fn drill_job<'a>(stories: &str, words: &[Text]) -> Option<Job<'a>>
    ensures { result ≡ spec.drill_job stories.now words.now }
{
    match words {
        [seed] => drill_by(stories, seed.as_str()),
        _ => None,
    }
}

/// To drill so many stories with this seed, if the words are numbers, and the first one from 1 to 100000.
fn drill_by<'a>(stories: &str, seed: &str) -> Option<Job<'a>>
    ensures { result ≡ drill_of (number_of stories.now) (seed_of seed.now) }
{
    let stories = read_number(stories)?;
    let seed = read_seed(seed)?;
    if stories == 0 || stories > MOST_STORIES {
        return None;
    }
    Some(Job::Drill { stories, seed })
}

/// What this word and a store ask for.
fn short_job<'a>(verb: &str) -> Option<Job<'a>>
    ensures { result ≡ spec.short_job verb.now }
{
    match verb {
        "batch" => Some(Job::Batch),
        "queue" => Some(Job::Queue),
        "check" => Some(Job::Check),
        "pack" => Some(Job::Pack),
        "limits" => Some(Job::Limits),
        _ => None,
    }
}

/// What this word, a store and one word more ask for.
fn long_job<'a>(verb: &str, word: &str) -> Option<Job<'a>>
    ensures { result ≡ spec.long_job verb.now word.now }
{
    if verb == "init" {
        return init_job(word);
    }
    if verb == "receive" {
        return receive_job(word);
    }
    if verb == "import" {
        return import_job(word);
    }
    if verb == "contents" {
        return contents_job(word);
    }
    if verb == "audit" {
        return audit_job(word);
    }
    if verb == "ask" {
        return ask_job(word);
    }
    if verb == "digest" {
        return digest_job(word);
    }
    if verb == "stand-in" {
        return stand_in_job(word);
    }
    None
}

/// To make a log for the store that this identifies, if it does.
fn init_job<'a>(identifier: &str) -> Option<Job<'a>>
    ensures { result ≡ option_map Init (parsed identifier.now) }
{
    match Uuid::parse_str(identifier) {
        Ok(store) => Some(Job::Init(store)),
        Err(_) => None,
    }
}

/// To take records as the standby of the store that this identifies, if it does.
fn stand_in_job<'a>(identifier: &str) -> Option<Job<'a>>
    ensures { result ≡ option_map StandIn (parsed identifier.now) }
{
    match Uuid::parse_str(identifier) {
        Ok(store) => Some(Job::StandIn(store)),
        Err(_) => None,
    }
}

/// To take frames as the receiver of this name, if it is one.
fn receive_job<'a>(name: &str) -> Option<Job<'a>>
    ensures { result ≡ option_map Receive (name_of name.now) }
{
    Some(Job::Receive(Name::read(name)?))
}

/// To add the subscribers of a table as requests of this caller, if the word is a name.
fn import_job<'a>(caller: &str) -> Option<Job<'a>>
    ensures { result ≡ option_map Import (name_of caller.now) }
{
    Some(Job::Import(Name::read(caller)?))
}

/// To tell what the publication of this number holds, if the word is one.
fn contents_job<'a>(publication: &str) -> Option<Job<'a>>
    ensures { result ≡ option_map Contents (number_of publication.now) }
{
    Some(Job::Contents(read_number(publication)?))
}

/// To write the lines of the entries behind so many, if the word is a number of entries.
fn audit_job<'a>(after: &str) -> Option<Job<'a>>
    ensures { result ≡ option_map Audit (place_of (seed_of after.now)) }
{
    Some(Job::Audit(read_place(after)?))
}

/// To answer questions at the first entries, so many, if the word is a number of entries.
fn ask_job<'a>(entries: &str) -> Option<Job<'a>>
    ensures { result ≡ option_map Ask (place_of (seed_of entries.now)) }
{
    Some(Job::Ask(read_place(entries)?))
}

/// To tell the digest of the first entries, so many, if the word is a number of entries.
fn digest_job<'a>(entries: &str) -> Option<Job<'a>>
    ensures { result ≡ option_map Digest (place_of (seed_of entries.now)) }
{
    Some(Job::Digest(read_place(entries)?))
}

/// What this word, a store and two words more ask for.
fn wide_job<'a>(verb: &str, first: &str, second: &'a Text) -> Option<Job<'a>>
    ensures { result ≡ spec.wide_job verb.now first.now second.now }
{
    match verb {
        "ingest" => ingest_job(first, second.as_str()),
        "package" => package_job(first, second.as_str()),
        "feed" => feed_job(first, second.as_str()),
        "archive" => archive_job(first, second),
        "why" => why_job(first, second.as_str()),
        "ship" => ship_job(first, second.as_str()),
        _ => None,
    }
}

/// To take in what comes in this format from this provider, if they are a format and a name.
fn ingest_job<'a>(format: &str, provider: &str) -> Option<Job<'a>>
    ensures { result ≡ ingest_of (format_of format.now) (name_of provider.now) }
{
    Some(Job::Ingest {
        format: read_format(format)?,
        provider: Name::read(provider)?,
    })
}

/// To report this subscriber's feed behind so many entries, if they are a name and a number.
fn feed_job<'a>(subscriber: &str, after: &str) -> Option<Job<'a>>
    ensures { result ≡ feed_of (name_of subscriber.now) (number_of after.now) }
{
    Some(Job::Feed {
        subscriber: Name::read(subscriber)?,
        after: read_number(after)?,
    })
}

/// To publish a package as this caller's request of this number, if they are a name and a number.
fn package_job<'a>(caller: &str, number: &str) -> Option<Job<'a>>
    ensures { result ≡ package_of (name_of caller.now) (seed_of number.now) }
{
    Some(Job::Package {
        caller: Name::read(caller)?,
        number: read_seed(number)?,
    })
}

/// To tell what this query finds behind so many pages, if the first word is a number.
fn archive_job<'a>(page: &str, query: &'a Text) -> Option<Job<'a>>
    ensures { result ≡ archive_of (number_of page.now) query.now }
{
    Some(Job::Archive {
        page: read_number(page)?,
        query: Word::of(query),
    })
}

/// To tell why a publication is due to a subscriber or not, if they are a number and a name.
fn why_job<'a>(publication: &str, subscriber: &str) -> Option<Job<'a>>
    ensures { result ≡ why_of (number_of publication.now) (name_of subscriber.now) }
{
    Some(Job::Why {
        publication: read_number(publication)?,
        subscriber: Name::read(subscriber)?,
    })
}

/// To ship records to the standby of this name, if it is one, and the second word may be an address.
fn ship_job<'a>(name: &str, address: &str) -> Option<Job<'a>>
    ensures { result ≡ ship_of (name_of name.now) address.now }
{
    let name = Name::read(name)?;
    if is_option(address) {
        return None;
    }
    Some(Job::Ship(name))
}

/// The format of what comes in, if the word is one.
fn read_format(word: &str) -> Option<IngestFormat>
    ensures { result ≡ format_of word.now }
{
    match word {
        "7901" => Some(IngestFormat::Wire),
        "ninjs" => Some(IngestFormat::Item),
        "7901-any" => Some(IngestFormat::AgencyWire),
        "ninjs-any" => Some(IngestFormat::AgencyItems),
        _ => None,
    }
}

fn are_digits(word: &[u8]) -> bool
    ensures { result ≡ list_all is_ascii_digit word.now }
{
    word.iter().all(|byte| byte.is_ascii_digit())
}

/// Whether the first of several bytes is a 0.
fn leads_with_zero(word: &[u8]) -> bool
    ensures { result ≡ spec.leads_with_zero word.now }
{
    word.len() > 1 && word[0] == b'0'
}

/// The number that the word is, if it is one below 4294967296, in decimal without a sign and without leading zeros.
pub(crate) fn read_number(word: &str) -> Option<u32>
    ensures { result ≡ number_of word.now }
{
    let digits = word.as_bytes();
    if !are_digits(digits) || leads_with_zero(digits) {
        return None;
    }
    word.parse().ok()
}

/// The number that the word is, if it is one below 2^64, in decimal without a sign and without leading zeros.
fn read_seed(word: &str) -> Option<u64>
    ensures { result ≡ seed_of word.now }
{
    let digits = word.as_bytes();
    if !are_digits(digits) || leads_with_zero(digits) {
        return None;
    }
    word.parse().ok()
}

/// How many entries the word asks for, if it is a number below 2^48.
fn read_place(word: &str) -> Option<u64>
    ensures { result ≡ place_of (seed_of word.now) }
{
    let place = read_seed(word)?;
    if place >= PLACES {
        return None;
    }
    Some(place)
}
