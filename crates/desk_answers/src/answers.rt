//! Answers are written, each without a line end.
ghost use Rattle.std.specs.Prelude.{◌≡◌, IfOk};
ghost use Rattle.std.specs.Option.{option_map};
ghost use Rattle.desk_answers.specs.Answers as said;
ghost use Rattle.desk_answers.specs.Seen.{seen};
ghost use Rattle.desk_answers.specs.Members as member;

use crate::denials::denial_text;
use crate::feed::feed_text;
use crate::object::Told;
use crate::told::Shown;
use crate::words;
use desk_lines::{LineProperty, word_of_property};
use news_types::{
    Answer, Bytes, Denial, FeedRow, Holder, ItemRow, Memory, Name, Place, Publication, QueueRow,
    Reply, Story,
};
use std::alloc::{AllocError, Global};

/// The answer to what was done, or to a repeat of it.
pub fn reply_text(alloc: Global, reply: &Reply, repeat: bool) -> Result<Bytes, Memory>
    ensures { IfOk result (λ bytes. bytes ≡ said.reply_bytes reply.now repeat) }
{
    let told = replying(alloc, repeat)?
        .unless_zero("entry", reply.entry)?
        .unless_zero("item", reply.item as u64)?
        .unless_zero("publication", reply.publication as u64)?;
    released(told, reply)?.written()
}

fn replying(alloc: Global, repeat: bool) -> Result<Told, AllocError>
    ensures { IfOk result (λ told. seen told ≡ said.replying repeat) }
{
    if repeat {
        Told::answering(alloc, "repeat")
    } else {
        Told::answering(alloc, "done")
    }
}

/// The object with the release of a publication.
#[tactic(auto, unfolding(crate::specs::Answers::released))]
fn released(told: Told, reply: &Reply) -> Result<Told, AllocError>
    ensures { IfOk result (λ more. seen more ≡ said.released reply.now (seen told)) }
{
    if reply.publication == 0 {
        return Ok(told);
    }
    told.number("release", reply.release)
}

/// The answer to a line whose first bad property this is.
pub fn bad_text(alloc: Global, property: LineProperty) -> Result<Bytes, Memory>
    ensures { IfOk result (λ bytes. bytes ≡ said.bad_bytes property) }
{
    Told::answering(alloc, "bad")?
        .text("property", word_of_property(property))?
        .written()
}

/// The answer to a faulty story of a wire or an item: where the fault stands, what it is, and of which property.
pub fn fault_text(
    alloc: Global,
    at: Option<u64>,
    what: &str,
    property: Option<&str>,
) -> Result<Bytes, Memory>
    ensures { IfOk result (λ bytes. bytes ≡ said.fault_bytes at what.now (option_map (λ text. text.now) property.entry)) }
{
    let told = placed_at(Told::answering(alloc, "fault")?, at)?.text("what", what)?;
    of_property(told, property)?.written()
}

#[tactic(auto, unfolding(crate::specs::Members::given))]
fn placed_at(told: Told, at: Option<u64>) -> Result<Told, AllocError>
    ensures { IfOk result (λ more. seen more ≡ member.given (member.number "at") at (seen told)) }
{
    match at {
        None => Ok(told),
        Some(at) => told.number("at", at),
    }
}

#[tactic(auto, unfolding(crate::specs::Members::given))]
fn of_property(told: Told, property: Option<&str>) -> Result<Told, AllocError>
    ensures { IfOk result (λ more. seen more ≡ member.given (member.text "property") (option_map (λ text. text.now) property.entry) (seen told)) }
{
    match property {
        None => Ok(told),
        Some(property) => told.text("property", property),
    }
}

/// The answer to a question of a line: a feed, an item, the queue, the check, a publication, or that a thing is not there.
///
/// The other answers have no line, and so the condition rules them out: frames and whether a user may are for HTTP, and
/// numbers of publications for the calls of a program.
pub fn answer_text(alloc: Global, answer: &Answer) -> Result<Bytes, Memory>
    requires { said.HasLine answer.now }
    ensures { IfOk result (λ bytes. bytes ≡ said.answer_bytes answer.now) }
{
    match answer {
        Answer::Feed {
            subscriber,
            length,
            entries,
        } => feed_text(alloc, subscriber, *length, entries.as_slice()),
        Answer::Item(row) => item_text(alloc, row),
        Answer::Queue(rows) => queue_text(alloc, rows.as_slice()),
        Answer::Check {
            entries,
            moment,
            publications,
        } => check_text(alloc, *entries, *moment, *publications),
        Answer::Publication(publication) => publication_text(alloc, publication),
        Answer::NoPublication { count } => no_publication_text(alloc, *count),
        Answer::Unknown { thing } => denial_text(alloc, &Denial::UnknownThing { thing: *thing }),
        Answer::Frame(_) | Answer::NoFrame { .. } | Answer::May(_) | Answer::Number { .. } =>
            unreachable!(),
    }
}

fn item_text(alloc: Global, row: &ItemRow) -> Result<Bytes, Memory>
    ensures { IfOk result (λ bytes. bytes ≡ said.item_bytes row.now) }
{
    let told = item(alloc, row)?;
    held(placed(told, row.place)?, row.holder)?.written()
}

/// An item, without its place and holder.
#[tactic(auto, unfolding(crate::specs::Answers::item))]
fn item(alloc: Global, row: &ItemRow) -> Result<Told, AllocError>
    ensures { IfOk result (λ told. seen told ≡ said.item row.now) }
{
    let story = story(alloc, &row.story)?;
    Told::answering(alloc, "item")?
        .number("item", row.item as u64)?
        .text("state", words::word_of_state(row.state))?
        .number("version", row.version as u64)?
        .inner("story", story)
}

/// A story with all its properties.
#[tactic(auto, unfolding(crate::specs::Answers::story))]
fn story(alloc: Global, story: &Story) -> Result<Told, AllocError>
    ensures { IfOk result (λ told. seen told ≡ said.story story.now) }
{
    Told::new(alloc)
        .text("body", story.body.as_str())?
        .text("byline", story.byline.as_str())?
        .text("category", story.category.as_str())?
        .text("copyright", story.copyright.as_str())?
        .text("headline", story.headline.as_str())?
        .flag("html", story.html)?
        .text("kind", story.kind.word())?
        .text("language", story.language.as_str())?
        .text("slugline", story.slugline.as_str())?
        .number("urgency", story.urgency as u64)
}

#[tactic(auto, unfolding(crate::specs::Members::given, crate::specs::Answers::placed))]
fn placed(told: Told, place: Option<Place>) -> Result<Told, AllocError>
    ensures { IfOk result (λ more. seen more ≡ member.given said.placed place (seen told)) }
{
    match place {
        None => Ok(told),
        Some(place) => told
            .text("desk", place.desk.as_str())?
            .text("stage", place.stage.as_str()),
    }
}

#[tactic(auto, unfolding(crate::specs::Members::given, crate::specs::Answers::held))]
fn held(told: Told, holder: Option<Holder>) -> Result<Told, AllocError>
    ensures { IfOk result (λ more. seen more ≡ member.given said.held holder (seen told)) }
{
    match holder {
        None => Ok(told),
        Some(holder) => told
            .text("session", holder.session.as_str())?
            .text("user", holder.user.as_str()),
    }
}

fn queue_text(alloc: Global, rows: &[QueueRow]) -> Result<Bytes, Memory>
    ensures { IfOk result (λ bytes. bytes ≡ said.queue_bytes rows.now) }
{
    Told::answering(alloc, "queue")?
        .list("feeds", rows)?
        .written()
}

impl Shown for QueueRow {
    ghost members = { said.queue_row };

    fn shown(&self, alloc: Global) -> Result<Told, AllocError> {
        Told::new(alloc)
            .number("acked", self.acked as u64)?
            .number("length", self.length as u64)?
            .text("state", words::word_of_feed_state(self.state))?
            .text("subscriber", self.subscriber.as_str())?
            .number("tries", self.tries as u64)
    }
}

fn publication_text(alloc: Global, publication: &Publication) -> Result<Bytes, Memory>
    ensures { IfOk result (λ bytes. bytes ≡ member.written (said.publication publication.now)) }
{
    publication_object(alloc, publication)?.written()
}

/// A publication with its story, and what it is to those who have its item.
#[tactic(auto, unfolding(crate::specs::Answers::publication))]
fn publication_object(alloc: Global, publication: &Publication) -> Result<Told, AllocError>
    ensures { IfOk result (λ told. seen told ≡ said.publication publication.now) }
{
    let story = story(alloc, &publication.story)?;
    Told::answering(alloc, "publication")?
        .text("act", words::word_of_kind(publication.kind))?
        .number("item", publication.item as u64)?
        .number("release", publication.release)?
        .number("version", publication.version as u64)?
        .inner("story", story)
}

/// How many publications there are.
fn no_publication_text(alloc: Global, count: u32) -> Result<Bytes, Memory>
    ensures { IfOk result (λ bytes. bytes ≡ said.no_publication_bytes count) }
{
    Told::answering(alloc, "no-publication")?
        .number("count", count as u64)?
        .written()
}

fn check_text(alloc: Global, entries: u64, moment: u64, publications: u32) -> Result<Bytes, Memory>
    ensures { IfOk result (λ bytes. bytes ≡ said.check_bytes entries moment publications) }
{
    Told::answering(alloc, "check")?
        .number("entries", entries)?
        .number("moment", moment)?
        .number("publications", publications as u64)?
        .written()
}
