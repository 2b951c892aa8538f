//! The publications of an item, and what becomes of each.
ghost use Rattle.std.specs.Prelude.{◌≡◌, ◌++◌, IfOk, OnOk, map, take, nat_lt};
ghost use Rattle.std.specs.List.{filter};
ghost use Rattle.std.specs.List.Sorted.{IsNonDecreasing};
ghost use Rattle.std.specs.Option.{option_to_list};
ghost use Rattle.news_types.specs.History.{History};
ghost use Rattle.news_types.specs.Products.{subscribers};
ghost use Rattle.news_types.specs.Answers.{in_order};
ghost use Rattle.newsroom.specs.Stands.{StandsFor};
ghost use Rattle.told_objects.specs.Members.{◌with◌, list, answering, objects, written};
ghost use Rattle.told_objects.specs.Seen.{seen};
ghost use Rattle.desk_questions.specs.Publications.{sent, destiny, destinies, destined_in, destined_row, row_by_number, published_members};
ghost use Rattle.desk_questions.specs.Told.{publications_told};

use crate::answer::DeskTold;
use crate::courses::{Addressee, destiny};
use crate::words::word_of_course;
use desk_answers::word_of_kind;
use feed_reasons::Course;
use news_types::{Bytes, Memory, Name, Thing};
use newsroom::Newsroom;
use publications::Published;
use std::alloc::{AllocError, Global};
use told_objects::Object;

/// The most publications that are told at once.
const MOST_ROWS: usize = 100;

/// The first hundred publications of an item whose numbers are above this one, or that the item is not there.
pub(crate) fn tell_publications(
    alloc: Global,
    newsroom: &Newsroom,
    item: u32,
    after: u32,
) -> Result<DeskTold, Memory>
    ensures { IfOk result (λ told. (h : History) → StandsFor newsroom.now h
        → told ≡ publications_told h item after) }
{
    let stories = newsroom.stories();
    if stories.version(item).is_none() {
        return Ok(DeskTold::Unknown(Thing::Item));
    }
    let numbers = page(stories.numbers(item), after);
    let rows = publication_rows(alloc, newsroom, numbers)?;
    Ok(DeskTold::Found(publications_object(alloc, rows)?))
}

/// These rows, as an object.
fn publications_object(alloc: Global, rows: Vec<Object>) -> Result<Bytes, Memory>
    ensures { IfOk result (λ bytes. bytes ≡ written (answering "publications" with list "rows" seen rows.items)) }
{
    Object::answering(alloc, "publications")?
        .rows("rows", rows)?
        .written()
}

/// The first hundred of these numbers above another. They are found by binary search.
fn page(numbers: &[u32], after: u32) -> &[u32]
    ensures { IsNonDecreasing numbers.now → result.now ≡ take 100 (filter (nat_lt after) numbers.now) }
{
    let first = numbers.partition_point(|number| *number <= after);
    first_rows(&numbers[first..])
}

/// The first hundred of these.
fn first_rows(numbers: &[u32]) -> &[u32]
    ensures { result.now ≡ take 100 numbers.now }
{
    if numbers.len() > MOST_ROWS {
        &numbers[..MOST_ROWS]
    } else {
        numbers
    }
}

/// What is told of the publications of these numbers.
fn publication_rows(
    alloc: Global,
    newsroom: &Newsroom,
    numbers: &[u32],
) -> Result<Vec<Object>, Memory>
    ensures { IfOk result (λ rows. (h : History) → StandsFor newsroom.now h
        → map seen rows.items ≡ map (row_by_number h) numbers.now) }
{
    let mut rows = Vec::new(alloc);
    for number in numbers {
        rows.push(publication_row(alloc, newsroom, *number)?)?;
    }
    Ok(rows)
}

/// What is told of the publication of that number, if it is there.
fn publication_row(alloc: Global, newsroom: &Newsroom, number: u32) -> Result<Object, Memory>
    ensures { IfOk result (λ told. (h : History) → StandsFor newsroom.now h
        → seen told ≡ row_by_number h number) }
{
    let Some(published) = newsroom.stories().published(number) else {
        return Ok(Object::new(alloc));
    };
    let due = due_rows(alloc, newsroom, number)?;
    let stands = newsroom.dues().stands(number);
    let row = published_object(alloc, number, published, due, stands)?;
    Ok(row)
}

/// A publication, with these rows of those to whom it was made due.
#[tactic(auto, unfolding(crate::specs::Publications::published_members))]
fn published_object(
    alloc: Global,
    number: u32,
    published: &Published,
    due: Vec<Object>,
    stands: bool,
) -> Result<Object, AllocError>
    ensures { IfOk result (λ told. seen told ≡ published_members number published.now (objects seen due.items) stands) }
{
    Object::new(alloc)
        .rows("due", due)?
        .text("kind", word_of_kind(published.kind))?
        .number("publication", u64::from(number))?
        .number("release", published.release)?
        .flag("stands", stands)?
        .number("version", u64::from(published.version))
}

/// What becomes of the publication of that number, for each to whom it was made due, in byte order of the subscribers.
fn due_rows(alloc: Global, newsroom: &Newsroom, number: u32) -> Result<Vec<Object>, Memory>
    ensures { IfOk result (λ rows. (h : History) → StandsFor newsroom.now h
        → map seen rows.items ≡ map destined_row (destinies h number (in_order (subscribers h)))) }
{
    let mut rows = Vec::new(alloc);
    for subscriber in newsroom.stories().subscribers() {
        add_due(alloc, &mut rows, newsroom, number, subscriber)?;
    }
    Ok(rows)
}

/// Puts what becomes of the publication for the subscriber behind these, if it was made due to it.
fn add_due(
    alloc: Global,
    rows: &mut Vec<Object>,
    newsroom: &Newsroom,
    number: u32,
    subscriber: &Name,
) -> Result<(), Memory>
    ensures { (h : History) → StandsFor newsroom.now h
        → OnOk result (map seen rows.new.items ≡ map seen rows.old.items ++ map destined_row (option_to_list (destiny h number subscriber.now))) }
{
    let Some(found) = destiny(newsroom, number, subscriber) else {
        return Ok(());
    };
    rows.push(destined_object(alloc, &found)?)?;
    Ok(())
}

/// What becomes of a publication for a subscriber.
#[tactic(auto, unfolding(crate::specs::Publications::destined_row))]
fn destined_object(alloc: Global, found: &Addressee) -> Result<Object, AllocError>
    ensures { IfOk result (λ told. seen told ≡ destined_row (destined_in found.now)) }
{
    sent(Object::new(alloc), &found.course)?
        .text("course", word_of_course(&found.course))?
        .number("release", found.release)?
        .text("subscriber", found.subscriber.as_str())
}

/// The object with the entry, and whether it is acknowledged, if the publication was sent.
#[tactic(auto, unfolding(crate::specs::Publications::sent))]
fn sent(told: Object, course: &Course) -> Result<Object, AllocError>
    ensures { IfOk result (λ more. seen more ≡ sent course.now (seen told)) }
{
    match course {
        Course::Sent { k, acked } => told.flag("acked", *acked)?.number("k", u64::from(*k)),
        Course::NotDue | Course::TakenBack | Course::Waits { .. } => Ok(told),
    }
}
