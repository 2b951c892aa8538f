//! What standard error says of a store that was opened: a clock that has leapt, limits that are near, and names that no subscriber has.

use desk_views::Register;
use error_lines::{say, tell};
use list_marks::{Limited, Notices};
use news_types::{Moment, Name, Text};
use newsroom::Newsroom;
use release_rules::text_of_moment;
use std::fmt::{self, Display, Formatter, Write};
use std::time::{Clock, SystemTime, UNIX_EPOCH};

/// So many seconds may lie between a list's last entry and the clock before that is said: 31 days.
const LONGEST_PAUSE: u64 = 2_678_400;

/// Says on standard error what is noticed of a store.
#[derive(Drop)]
pub struct StoreNotices<'a, R> {
    rt: &'a R,
    store: &'a str,
    /// Whether the command goes by the clock.
    has_clock: bool,
    /// Whether it is a server, whose lines begin with the moment.
    serves: bool,
    /// The receivers that it names, each with its address behind it.
    pairs: &'a [Text],
}

/// What is noticed.
#[derive(Clone, Copy)]
enum Noticed<'a> {
    /// The clock is long past the last entry.
    Leap { clock: Moment, last: Moment },
    /// The clock is before the last entry.
    Back { clock: Moment, last: Moment },
    /// A limit is near.
    Near(Limited),
    /// No subscriber has the name of a receiver.
    Unknown(&'a str),
}

impl Display for Noticed<'_> {
    fn fmt<W: Write>(&self, f: &mut Formatter<W>) -> fmt::Result {
        match *self {
            Noticed::Leap { clock, last } => write!(
                f,
                "the clock shows {}, more than 31 days past the last entry, of {}: what is kept now has that moment for ever, so look at the clock first",
                text_of_moment(clock).as_str(),
                text_of_moment(last).as_str()
            ),
            Noticed::Back { clock, last } => write!(
                f,
                "the clock shows {}, before the last entry, of {}: until then what is kept has that moment, and what waits goes on waiting: look at the clock",
                text_of_moment(clock).as_str(),
                text_of_moment(last).as_str()
            ),
            Noticed::Near(limited) => write!(
                f,
                "more than 80 of 100 of the limit of `{}` are used: `newsdesk limits` tells how much of each",
                limited.word()
            ),
            Noticed::Unknown(name) => write!(
                f,
                "no subscriber has the name `{name}`: nothing goes to its address until `add_subscriber` has added it"
            ),
        }
    }
}

impl<'a, R: Clock + Eprint> StoreNotices<'a, R> {
    /// Of the store that these words name.
    pub fn of(rt: &'a R, words: &'a [Text]) -> StoreNotices<'a, R> {
        let (command, store) = match words {
            [command, store, ..] => (command.as_str(), store.as_str()),
            _ => ("", ""),
        };
        StoreNotices {
            rt,
            store,
            has_clock: goes_by_the_clock(command),
            serves: command == "serve",
            pairs: pairs_of(command, words),
        }
    }

    fn notice(&self, noticed: Noticed<'_>) {
        if self.serves {
            tell(self.rt, self.store, "", &noticed);
        } else {
            say(
                self.rt,
                &OfStore {
                    store: self.store,
                    noticed,
                },
            );
        }
    }
}

/// What is noticed of a store.
#[derive(Clone, Copy)]
struct OfStore<'a> {
    store: &'a str,
    noticed: Noticed<'a>,
}

impl Display for OfStore<'_> {
    fn fmt<W: Write>(&self, f: &mut Formatter<W>) -> fmt::Result {
        write!(f, "{}: {}", self.store, self.noticed)
    }
}

impl<R: Clock + Eprint> Notices for StoreNotices<'_, R> {
    fn opened(&mut self, newsroom: &Newsroom, near: &[Limited]) {
        if self.has_clock && newsroom.entries() > 0 {
            if let Some(noticed) = leap_of(self.rt, newsroom.moment()) {
                self.notice(noticed);
            }
        }
        for limited in near {
            self.notice(Noticed::Near(*limited));
        }
        for pair in self.pairs.chunks_exact(2) {
            if let Some(name) = pair
                .first()
                .filter(|name| is_unknown(newsroom, name.as_str()))
            {
                self.notice(Noticed::Unknown(name.as_str()));
            }
        }
    }
}

/// The receivers that the words of a command name, each with its address behind it.
fn pairs_of<'a>(command: &str, words: &'a [Text]) -> &'a [Text] {
    match (command, words) {
        ("drain", [_, _, pairs @ ..]) | ("serve", [_, _, _, _, pairs @ ..]) => pairs,
        _ => &[],
    }
}

/// Whether no subscriber has this name.
fn is_unknown(newsroom: &Newsroom, name: &str) -> bool {
    let Some(name) = Name::read(name) else {
        return false;
    };
    let rules = newsroom.rules();
    let mut page = rules.things(Register::Subscribers, &None);
    // Of at most 256 subscribers a page has a hundred.
    for _ in 0..3 {
        if page.iter().any(|subscriber| *subscriber == name) {
            return false;
        }
        page = rules.things(Register::Subscribers, &page.last().copied());
    }
    true
}

/// Whether what a command keeps gets its moment from the clock.
fn goes_by_the_clock(command: &str) -> bool {
    matches!(
        command,
        "batch" | "serve" | "ingest" | "feed" | "queue" | "drain" | "package" | "import"
    )
}

/// What is noticed of the clock where the last entry has this moment.
fn leap_of<R: Clock>(rt: &R, last: Moment) -> Option<Noticed<'static>> {
    let now = SystemTime::now(rt).ok()?;
    let clock = now.duration_since(UNIX_EPOCH).ok()?.as_secs();
    if clock < last {
        return Some(Noticed::Back { clock, last });
    }
    if clock - last > LONGEST_PAUSE {
        return Some(Noticed::Leap { clock, last });
    }
    None
}
