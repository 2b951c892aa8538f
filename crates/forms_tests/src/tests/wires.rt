//! Tests of `text7901`.
ghost use Rattle.std.specs.Prelude.{◌≡◌, ◌≤◌, ◌<◌, [], false};

use super::given::{FIRE, Told, publication};
use news_types::{Bytes, Incoming, Kind, Memory};
use std::alloc::Global;
use std::test::Fail;
use text7901::{Found, Reader, write};

/// Two messages, with CR LF and with LF.
const TWO: &[u8] =
    b"\x16\x16\x01bas0001 3 pl 12 dpa\r\nfire\r\n\x02Caf\xe9\r\nSmoke.\r\n\x03 011200 may 24\r\n\x04\x01bas0002 3 pl 12 dpa\nfire\n\x02Caf\xe9\nSmoke.\n\x03 011200 may 24\n\x04";

const ETX: u8 = 3;

const EOT: u8 = 4;

/// Takes what is ready, and counts its stories.
fn count_ready(reader: &mut Reader) -> usize
    ensures { reader.new ≡ record reader.old { ready = [] } }
{
    let mut count: usize = 0;
    while let Some(found) = reader.next() {
        if let Found::Story(_) = found {
            count = count.saturating_add(1);
        }
    }
    count
}

fn count_of(bytes: &[u8], wanted: u8) -> usize {
    bytes.iter().filter(|byte| **byte == wanted).count()
}

/// How many stories a wire has before it ends, and then.
fn counts_of(reader: &mut Reader, wire: &[u8]) -> Result<(usize, usize), Memory>
    requires begins { reader.old.at ≡ 0 }
    requires open { reader.old.ended ≡ false }
{
    reader.feed(wire)?;
    let before = count_ready(reader);
    reader.finish()?;
    Ok((before, before.saturating_add(count_ready(reader))))
}

/// Whether the wire has a story for each EOT before it ends, and then one for each ETX.
fn is_told_in_time(alloc: Global, wire: &[u8]) -> Result<bool, Memory> {
    let mut reader = Reader::new(alloc)?;
    let counts = counts_of(&mut reader, wire);
    drop(reader);
    let (before, all) = counts?;
    Ok(before == count_of(wire, EOT) && all == count_of(wire, ETX))
}

#[test]
fn fronts(rt: HostRuntime) -> Result<(), Fail> {
    for place in 0..=TWO.len() {
        let (front, _) = TWO.split_at(place);
        assert!(rt; is_told_in_time(rt.alloc(), front)?, "{place}");
    }
    Ok(())
}

fn wire_of(alloc: Global, told: &Told) -> Result<Bytes, Memory> {
    let publication = publication(alloc, told)?;
    let wire = write(alloc, &publication);
    drop(publication);
    wire
}

fn is_written_as(alloc: Global, told: &Told, wire: &[u8]) -> Result<bool, Memory> {
    Ok(wire_of(alloc, told)?.as_slice() == wire)
}

const WRITTEN: [(Told, &[u8]); 6] = [
    (
        Told {
            byline: "Ann",
            ..FIRE
        },
        b"\x01NWS0001 3 n 1 FIRST\r\nfire\r\n\x02Fire\r\nSmoke.\r\n\x031970-01-01T00:16:40Z\x04",
    ),
    (
        Told {
            kind: Kind::Correct,
            urgency: 0,
            category: "p1l-é",
            ..FIRE
        },
        b"\x01NWS0001 5 pl 1 CORRECTION\r\nfire\r\n\x02Fire\r\nSmoke.\r\n\x031970-01-01T00:16:40Z\x04",
    ),
    (
        Told {
            number: 123456,
            kind: Kind::Kill,
            slugline: "a\r\nb\x01\x04\x05",
            headline: "Café €\x02\x03",
            body: "a\r\n\r b\tc \n\x03é€ÿ\n",
            ..FIRE
        },
        b"\x01NWS123456 3 n 4 KILL\r\na  b??\x05\r\n\x02Caf\xe9 ???\r\na\r\n b\tc \r\n?\xe9?\xff\r\n\r\n\x031970-01-01T00:16:40Z\x04",
    ),
    (
        Told {
            kind: Kind::Recall,
            slugline: "",
            headline: "",
            body: "",
            ..FIRE
        },
        b"\x01NWS0001 3 n 0 RECALL\r\n\r\n\x02\r\n\r\n\x031970-01-01T00:16:40Z\x04",
    ),
    (
        Told {
            number: 9999,
            urgency: 9,
            category: "-",
            body: " \t\r\n",
            release: 253402300799,
            ..FIRE
        },
        b"\x01NWS9999 9 n 0 FIRST\r\nfire\r\n\x02Fire\r\n \t\r\n\r\n\x039999-12-31T23:59:59Z\x04",
    ),
    (
        Told {
            category: "abc",
            body: "\x01 b",
            release: 0,
            ..FIRE
        },
        b"\x01NWS0001 3 abc 2 FIRST\r\nfire\r\n\x02Fire\r\n? b\r\n\x031970-01-01T00:00:00Z\x04",
    ),
];

#[test]
fn written(rt: HostRuntime) -> Result<(), Fail> {
    for (told, wire) in WRITTEN {
        assert!(rt;
            is_written_as(rt.alloc(), &told, wire)?,
            "{}",
            told.headline
        );
    }
    Ok(())
}

/// No more than 99999 words are counted.
#[test]
fn many_words(rt: HostRuntime) -> Result<(), Fail> {
    let mut body = String::new(rt.alloc());
    for _ in 0..100001 {
        body.push_str("a ")?;
    }
    let told = Told {
        body: body.as_str(),
        ..FIRE
    };
    let wire = wire_of(rt.alloc(), &told)?;
    assert!(rt;
        wire.as_slice()
            .starts_with(b"\x01NWS0001 3 n 99999 FIRST\r\n")
    );
    Ok(())
}

/// Numbers that look drawn, the same at each run.
#[derive(Drop)]
struct Draws {
    state: u64,
}

impl Draws {
    fn below(&mut self, limit: usize) -> usize
        requires { 0 < limit }
        ensures { result < limit }
    {
        self.state = self
            .state
            .wrapping_mul(6_364_136_223_846_793_005)
            .wrapping_add(1_442_695_040_888_963_407);
        (self.state >> 33) as usize % limit
    }
}

/// The characters of drawn texts. A slugline has the first eight, a headline the first sixteen.
const LETTERS: [char; 17] = [
    'a', 'Z', 'é', 'ÿ', '.', '0', '\u{80}', 'ß', ' ', '\t', '\u{5}', '\0', '@', '\u{a0}', '<', '|',
    '\n',
];

fn drawn(alloc: Global, draws: &mut Draws, most: usize, letters: usize) -> Result<String, Memory>
    requires few { letters ≤ 17 }
    requires some { 0 < letters }
    requires fits { most < 1000 }
{
    let mut text = String::new(alloc);
    for _ in 0..draws.below(most + 1) {
        text.push(LETTERS[draws.below(letters)])?;
    }
    Ok(text)
}

/// What is found first in a whole wire.
fn first_of(alloc: Global, wire: &[u8]) -> Result<Option<Found>, Memory> {
    let mut reader = Reader::new(alloc)?;
    reader.feed(wire)?;
    reader.finish()?;
    Ok(reader.next())
}

fn is_told(incoming: &Incoming, identity: &str, told: &Told) -> bool {
    let story = &incoming.story;
    incoming.identity.as_str() == identity
        && story.urgency == told.urgency
        && story.category.as_str() == told.category
        && story.slugline.as_str() == told.slugline
        && story.headline.as_str() == told.headline
        && story.body.as_str() == told.body
}

fn category_of(draw: usize) -> &'static str {
    match draw {
        0 => "a",
        1 => "bc",
        _ => "DEF",
    }
}

/// The texts of a drawn story.
#[derive(Drop)]
struct DrawnTexts {
    slugline: String,
    headline: String,
    body: String,
}

fn drawn_texts(alloc: Global, draws: &mut Draws) -> Result<DrawnTexts, Memory> {
    let slugline = drawn(alloc, draws, 20, 8)?;
    let headline = drawn(alloc, draws, 40, 16)?;
    let body = drawn(alloc, draws, 60, 17)?;
    Ok(DrawnTexts {
        slugline,
        headline,
        body,
    })
}

/// A story with these texts.
fn told_of<'a>(texts: &'a DrawnTexts, draws: &mut Draws, number: u32) -> Told<'a> {
    let urgency = draws.below(9) as u8 + 1;
    let category = category_of(draws.below(3));
    Told {
        number,
        urgency,
        category,
        slugline: texts.slugline.as_str(),
        headline: texts.headline.as_str(),
        body: texts.body.as_str(),
        ..FIRE
    }
}

/// Whether a drawn story that is written for the wire is read again as it was.
fn comes_back(alloc: Global, draws: &mut Draws, number: u32) -> Result<bool, Memory> {
    let texts = drawn_texts(alloc, draws)?;
    let told = told_of(&texts, draws, number);
    let wire = wire_of(alloc, &told)?;
    let identity = format!(in alloc; "NWS{number:04}@1970-01-01T00:16:40Z")?;
    match first_of(alloc, wire.as_slice())? {
        Some(Found::Story(incoming)) => Ok(is_told(&incoming, identity.as_str(), &told)),
        _ => Ok(false),
    }
}

#[test]
fn drawn_stories_come_back(rt: HostRuntime) -> Result<(), Fail> {
    let mut draws = Draws { state: 7901 };
    for number in 1..1001 {
        assert!(rt; comes_back(rt.alloc(), &mut draws, number)?, "{number}");
    }
    Ok(())
}
