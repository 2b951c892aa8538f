//! Why words are no command, in words.

use command_words::{command_help, read_options};
use error_lines::{say, say_usage};
use news_types::{Name, Text};
use std::fmt::{self, Display, Formatter, Write};
use uuid::Uuid;

/// What a word stands for.
#[derive(Clone, Copy, PartialEq, Eq)]
enum Kind {
    Store,
    Identifier,
    Format,
    Name,
    /// A number below 2^32.
    Number,
    /// A number of entries, below 2^48.
    Place,
    /// A number below 2^64.
    Seed,
    Stories,
    Workers,
    Query,
    Address,
}

/// The words behind a command, and whether pairs of a name and an address follow them.
#[derive(Drop)]
struct Form {
    words: [Option<Kind>; 3],
    has_pairs: bool,
}

impl Form {
    /// A store, and these behind it.
    fn of_store(second: Option<Kind>, third: Option<Kind>) -> Form {
        Form {
            words: [Some(Kind::Store), second, third],
            has_pairs: false,
        }
    }

    /// The same, and pairs behind them.
    fn with_pairs(second: Option<Kind>, third: Option<Kind>) -> Form {
        Form {
            words: [Some(Kind::Store), second, third],
            has_pairs: true,
        }
    }
}

/// What stands behind a command; nothing where the word is none.
fn form_of(command: &str) -> Option<Form> {
    let form = match command {
        "batch" | "queue" | "check" | "pack" | "limits" => Form::of_store(None, None),
        "init" | "stand-in" => Form::of_store(Some(Kind::Identifier), None),
        "receive" | "import" => Form::of_store(Some(Kind::Name), None),
        "contents" => Form::of_store(Some(Kind::Number), None),
        "audit" | "ask" | "digest" => Form::of_store(Some(Kind::Place), None),
        "ingest" => Form::of_store(Some(Kind::Format), Some(Kind::Name)),
        "package" => Form::of_store(Some(Kind::Name), Some(Kind::Seed)),
        "feed" => Form::of_store(Some(Kind::Name), Some(Kind::Number)),
        "archive" => Form::of_store(Some(Kind::Number), Some(Kind::Query)),
        "why" => Form::of_store(Some(Kind::Number), Some(Kind::Name)),
        "ship" => Form::of_store(Some(Kind::Name), Some(Kind::Address)),
        "drain" => Form::with_pairs(None, None),
        "serve" => Form::with_pairs(Some(Kind::Address), Some(Kind::Workers)),
        "drill" => Form {
            words: [Some(Kind::Stories), Some(Kind::Seed), None],
            has_pairs: false,
        },
        _ => return None,
    };
    Some(form)
}

impl Kind {
    /// What it is called in the line of its command.
    fn label(self) -> &'static str {
        match self {
            Kind::Store => "STORE",
            Kind::Identifier => "UUID",
            Kind::Format => "FORMAT",
            Kind::Name => "a name",
            Kind::Number | Kind::Place | Kind::Seed => "a number",
            Kind::Stories => "N",
            Kind::Workers => "WORKERS",
            Kind::Query => "QUERY",
            Kind::Address => "ADDRESS",
        }
    }

    /// What it has to be.
    fn wanted(self) -> &'static str {
        match self {
            Kind::Store => "a path that does not begin with `--`",
            Kind::Identifier => "a UUID, as 6ba7b810-9dad-11d1-80b4-00c04fd430c8",
            Kind::Format => "7901, ninjs, 7901-any or ninjs-any",
            Kind::Name => "1 to 32 of a to z, 0 to 9, `-` and `_`",
            Kind::Number =>
                "below 4294967296, in decimal, without a sign and without leading zeros",
            Kind::Place => {
                "below 281474976710656, in decimal, without a sign and without leading zeros"
            }
            Kind::Seed => {
                "below 18446744073709551616, in decimal, without a sign and without leading zeros"
            }
            Kind::Stories => "a number from 1 to 100000",
            Kind::Workers => "a number from 1 to 16",
            Kind::Query => "a word",
            Kind::Address => "HOST:PORT, the port from 1 to 65535",
        }
    }

    /// Whether a word is one.
    fn takes(self, word: &str) -> bool {
        match self {
            Kind::Store => !word.starts_with("--"),
            Kind::Identifier => Uuid::parse_str(word).is_ok(),
            Kind::Format => matches!(word, "7901" | "ninjs" | "7901-any" | "ninjs-any"),
            Kind::Name => Name::read(word).is_some(),
            Kind::Number => number_of(word).is_some_and(|number| number < 4_294_967_296),
            Kind::Place => number_of(word).is_some_and(|number| number < 281_474_976_710_656),
            Kind::Seed => number_of(word).is_some(),
            Kind::Stories => number_of(word).is_some_and(|number| (1..=100_000).contains(&number)),
            Kind::Workers => number_of(word).is_some_and(|number| (1..=16).contains(&number)),
            Kind::Query => true,
            Kind::Address => is_address(word),
        }
    }
}

/// The number below 2^64 that a word is in decimal, without a sign and without leading zeros.
fn number_of(word: &str) -> Option<u64> {
    if !word.bytes().all(|byte| byte.is_ascii_digit())
        || (word.len() > 1 && word.starts_with('0'))
    {
        return None;
    }
    word.parse().ok()
}

/// Whether a word is a host and a port.
fn is_address(word: &str) -> bool {
    match word.rsplit_once(':') {
        Some((host, port)) => {
            !host.is_empty()
                && !word.starts_with("--")
                && number_of(port).is_some_and(|port| (1..=65_535).contains(&port))
        }
        None => false,
    }
}

/// Whether each second one of these words is a host and a port.
fn are_pairs(words: &[Text]) -> bool {
    words.chunks_exact(2).all(|pair| {
        pair.get(1)
            .is_some_and(|address| is_address(address.as_str()))
    })
}

/// Whether each word that stands for an address is a host and a port. Of words that lack one, and of a command without any, it is so.
pub fn has_addresses(words: &[Text]) -> bool {
    let [command, words @ ..] = words else {
        return true;
    };
    match (command.as_str(), words) {
        ("drain" | "ship", [_, pairs @ ..]) => are_pairs(pairs),
        ("serve", [_, address, _, pairs @ ..]) => {
            is_address(address.as_str()) && are_pairs(pairs)
        }
        _ => true,
    }
}

/// What is wrong with words.
#[derive(Clone, Copy)]
enum Wrong<'a> {
    NoCommand,
    NotACommand {
        word: &'a str,
    },
    BadOption {
        command: &'a str,
    },
    NotItsOption {
        command: &'a str,
    },
    Missing {
        command: &'a str,
        kind: Kind,
    },
    IsNot {
        command: &'a str,
        kind: Kind,
        word: &'a str,
    },
    NoAddress {
        command: &'a str,
        name: &'a str,
    },
    NameTwice {
        command: &'a str,
        name: &'a str,
    },
    OneTooMany {
        command: &'a str,
        word: &'a str,
    },
}

impl Display for Wrong<'_> {
    fn fmt<W: Write>(&self, f: &mut Formatter<W>) -> fmt::Result {
        match *self {
            Wrong::NoCommand => write!(f, "there is no command: `newsdesk --help` lists them"),
            Wrong::NotACommand { word } => {
                write!(f, "`{word}` is no command: `newsdesk --help` lists them")
            }
            Wrong::BadOption { command } => write!(
                f,
                "{command}: an option stands twice, or its value is none: FILE of --key, or SECONDS of --every, from 1 to 86400"
            ),
            Wrong::NotItsOption { command } => write!(f, "{command}: an option is not for it"),
            Wrong::Missing { command, kind } => {
                write!(
                    f,
                    "{command}: {} is missing: it has to be {}",
                    kind.label(),
                    kind.wanted()
                )
            }
            Wrong::IsNot {
                command,
                kind,
                word,
            } => write!(
                f,
                "{command}: `{word}` is not {}: it has to be {}",
                kind.label(),
                kind.wanted()
            ),
            Wrong::NoAddress { command, name } => write!(
                f,
                "{command}: the address of `{name}` is missing: it has to be {}",
                Kind::Address.wanted()
            ),
            Wrong::NameTwice { command, name } => {
                write!(f, "{command}: the name `{name}` stands twice")
            }
            Wrong::OneTooMany { command, word } => {
                write!(f, "{command}: `{word}` is one word too many")
            }
        }
    }
}

/// Says on standard error which of the words is not as it has to be, and the line of the command.
pub fn tell_usage<R: Eprint>(rt: &R, words: &[Text]) {
    say(rt, &wrong_of(words));
    if let [command, ..] = words {
        if let Some(line) = command_help(command.as_str()) {
            say_usage(rt, line);
        }
    }
}

/// What is wrong with words that are no command.
fn wrong_of(words: &[Text]) -> Wrong<'_> {
    let [word, behind @ ..] = words else {
        return Wrong::NoCommand;
    };
    let command = word.as_str();
    let Some(form) = form_of(command) else {
        return Wrong::NotACommand { word: command };
    };
    if read_options(words).is_none() {
        return Wrong::BadOption { command };
    }
    wrong_behind(command, &form, behind)
}

/// What is wrong with the words behind a command.
fn wrong_behind<'a>(command: &'a str, form: &Form, words: &'a [Text]) -> Wrong<'a> {
    let mut rest = words;
    for kind in form.words.iter().flatten() {
        let kind = *kind;
        let [word, behind @ ..] = rest else {
            return Wrong::Missing { command, kind };
        };
        let word = word.as_str();
        if !kind.takes(word) {
            return Wrong::IsNot {
                command,
                kind,
                word,
            };
        }
        rest = behind;
    }
    match rest {
        [] => Wrong::NotItsOption { command },
        pairs if form.has_pairs => wrong_pair(command, pairs),
        [word, ..] => Wrong::OneTooMany {
            command,
            word: word.as_str(),
        },
    }
}

/// What is wrong with names and addresses that stand by turns.
fn wrong_pair<'a>(command: &'a str, pairs: &'a [Text]) -> Wrong<'a> {
    for pair in pairs.chunks(2) {
        let [name, address @ ..] = pair else {
            break;
        };
        let name = name.as_str();
        if !Kind::Name.takes(name) {
            return Wrong::IsNot {
                command,
                kind: Kind::Name,
                word: name,
            };
        }
        let Some(address) = address.first() else {
            return Wrong::NoAddress { command, name };
        };
        if !is_address(address.as_str()) {
            return Wrong::IsNot {
                command,
                kind: Kind::Address,
                word: address.as_str(),
            };
        }
        if stands_twice(pairs, name) {
            return Wrong::NameTwice { command, name };
        }
    }
    Wrong::NotItsOption { command }
}

/// Whether two of the pairs have this name.
fn stands_twice(pairs: &[Text], name: &str) -> bool {
    let same = pairs
        .chunks(2)
        .filter(|pair| pair.first().is_some_and(|it| it.as_str() == name));
    same.count() > 1
}
