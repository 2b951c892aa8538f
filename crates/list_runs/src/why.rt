//! Why a publication is due to a subscriber or not, and what became of it.
ghost use Rattle.std.specs.Prelude.{◌≡◌, ◌<◌, ◌++◌, ◌∷◌, [], length, All, IfOk};
ghost use Rattle.news_types.specs.declared.denial.Denial.TheVariants.{UnknownThing};
ghost use Rattle.news_types.specs.History.{History};
ghost use Rattle.newsroom.specs.Stands.{Stands, StandsFor};
ghost use Rattle.desk_answers.specs.Answers.{denial_bytes};
ghost use Rattle.room_reports.specs.Written.{IsWrittenOut};
ghost use Rattle.told_objects.specs.Members.{written};
ghost use Rattle.told_objects.specs.Seen.{seen};
ghost use Rattle.desk_questions.specs.Publications as rows;
ghost use Rattle.list_runs.specs.Lists.{AreOf};
ghost use Rattle.list_runs.specs.Output.{GivesOnce};
ghost use Rattle.list_runs.specs.Why.{named, reasons_in, said_members, why_bytes, why_line, why_members};

use crate::output::{end, write_lines};
use crate::reasons::{Found, find_reasons};
use desk_answers::{denial_text, word_of_kind};
use desk_questions::{verdict_object, word_of_course};
use feed_reasons::Course;
use news_io::{Record, Sink};
use news_types::{Bytes, Denial, Memory, Name, Thing};
use newsroom::Newsroom;
use run_status::Status;
use std::alloc::{AllocError, Global};
use told_objects::Object;

/// Tells why the publication of that number is due to a subscriber or not, and what became of it, as one line, and gives the
/// status. The newsroom stands for the list of these records.
///
/// What the rules said is asked of the list behind which the publication was made. The status is 0 where the line was written
/// and has passed on, 5 where the output failed, and 9 where there was no memory.
pub fn tell_why<O: Sink>(
    alloc: Global,
    output: &mut O,
    newsroom: &Newsroom,
    records: &[Record],
    publication: u32,
    subscriber: &Name,
) -> u8
    requires few { length records.now < 2147483648 }
    requires places { All (λ r. r.at < 4294967296) records.now }
    requires stands { Stands newsroom.now }
    ensures { (h : History) → StandsFor newsroom.now h → AreOf records.now h
        → IsWrittenOut O.sink (why_line h publication subscriber.now) output.old output.new result }
{
    let written = write_why(alloc, output, newsroom, records, publication, subscriber);
    end(output, written)
}

/// Writes the line.
fn write_why<O: Sink>(
    alloc: Global,
    output: &mut O,
    newsroom: &Newsroom,
    records: &[Record],
    publication: u32,
    subscriber: &Name,
) -> Result<(), Status>
    requires few { length records.now < 2147483648 }
    requires places { All (λ r. r.at < 4294967296) records.now }
    requires stands { Stands newsroom.now }
    ensures { (h : History) → StandsFor newsroom.now h → AreOf records.now h
        → GivesOnce O.sink (why_line h publication subscriber.now) output.old output.new result }
{
    let Ok(line) = line_of(alloc, newsroom, records, publication, subscriber) else {
        return Err(Status::Memory);
    };
    write_lines(output, line.as_slice())
}

/// The line, with its line feed.
fn line_of(
    alloc: Global,
    newsroom: &Newsroom,
    records: &[Record],
    publication: u32,
    subscriber: &Name,
) -> Result<Bytes, Memory>
    requires few { length records.now < 2147483648 }
    requires places { All (λ r. r.at < 4294967296) records.now }
    requires stands { Stands newsroom.now }
    ensures { IfOk result (λ line. (h : History) → StandsFor newsroom.now h → AreOf records.now h → line ≡ why_line h publication subscriber.now) }
{
    let mut line = text_of(alloc, newsroom, records, publication, subscriber)?.into_vec();
    line.push(b'\n')?;
    Ok(Bytes::of(line))
}

/// What is told.
fn text_of(
    alloc: Global,
    newsroom: &Newsroom,
    records: &[Record],
    publication: u32,
    subscriber: &Name,
) -> Result<Bytes, Memory>
    requires few { length records.now < 2147483648 }
    requires places { All (λ r. r.at < 4294967296) records.now }
    requires stands { Stands newsroom.now }
    ensures { IfOk result (λ text. (h : History) → StandsFor newsroom.now h → AreOf records.now h → text ≡ why_bytes h publication subscriber.now) }
{
    let Some(published) = newsroom.published(publication) else {
        return unknown(alloc, Thing::Publication);
    };
    if !newsroom.stories().has_feeds(&[*subscriber]) {
        return unknown(alloc, Thing::Subscriber);
    }
    let found = find_reasons(alloc, newsroom, records, publication, published, subscriber)?;
    object_of(alloc, publication, published.item, subscriber, &found)
}

/// That a thing is not there.
fn unknown(alloc: Global, thing: Thing) -> Result<Bytes, Memory>
    ensures { IfOk result (λ text. text ≡ denial_bytes (UnknownThing thing)) }
{
    denial_text(alloc, &Denial::UnknownThing { thing })
}

/// The reasons of the publication of an item, as an object.
fn object_of(
    alloc: Global,
    publication: u32,
    item: u32,
    subscriber: &Name,
    found: &Found,
) -> Result<Bytes, Memory>
    ensures { IfOk result (λ text. text ≡ written (why_members publication item subscriber.now (reasons_in found.now))) }
{
    members_of(alloc, publication, item, subscriber, found)?.written()
}

/// The members of the object.
fn members_of(
    alloc: Global,
    publication: u32,
    item: u32,
    subscriber: &Name,
    found: &Found,
) -> Result<Object, AllocError>
    ensures { IfOk result (λ told. seen told ≡ why_members publication item subscriber.now (reasons_in found.now)) }
{
    let verdict = verdict_object(alloc, &found.verdict)?;
    let told = named(said(alloc, found)?, publication, item, subscriber)?;
    sent(told.inner("verdict", verdict)?, &found.course)
}

/// An object with what the reasons say, without the verdict.
#[tactic(auto, unfolding(crate::specs::Why::said_members))]
fn said(alloc: Global, found: &Found) -> Result<Object, AllocError>
    ensures { IfOk result (λ told. seen told ≡ said_members (reasons_in found.now)) }
{
    Object::answering(alloc, "why")?
        .text("course", word_of_course(&found.course))?
        .flag("due", found.says_due())?
        .flag("had", found.had)?
        .text("kind", word_of_kind(found.kind))
}

/// The object with the publication, its item and the subscriber.
#[tactic(auto, unfolding(crate::specs::Why::named))]
fn named(told: Object, publication: u32, item: u32, subscriber: &Name) -> Result<Object, AllocError>
    ensures { IfOk result (λ more. seen more ≡ named publication item subscriber.now (seen told)) }
{
    told.number("item", u64::from(item))?
        .number("publication", u64::from(publication))?
        .text("subscriber", subscriber.as_str())
}

/// The object with the entry of the feed, and whether that is acknowledged, if it was sent.
#[tactic(auto, unfolding(desk_questions::specs::Publications::sent))]
fn sent(told: Object, course: &Course) -> Result<Object, AllocError>
    ensures { IfOk result (λ more. seen more ≡ rows.sent course.now (seen told)) }
{
    match course {
        Course::Sent { k, acked } => told.flag("acked", *acked)?.number("k", u64::from(*k)),
        Course::NotDue | Course::TakenBack | Course::Waits { .. } => Ok(told),
    }
}
