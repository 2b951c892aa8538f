//! Queries are asked of the publications of a room.
ghost use Rattle.std.specs.Prelude.{◌≡◌, ◌<◌, ◌≤◌, ◌+◌, ◌++◌, ℕ, List, IfOk, OnOk, length};
ghost use Rattle.news_types.specs.Books.{Book};
ghost use Rattle.news_types.specs.Publications.{pubs};
ghost use Rattle.news_types.specs.Answers.{publication_at};
ghost use Rattle.story_tables.specs.Pages.{publication_of};
ghost use Rattle.news_room.specs.Stands.{Stands, SomeBook};
ghost use Rattle.archive_query.specs.Query.{hits, meaning};
ghost use Rattle.archive_query.specs.View.{query_of};
ghost use Rattle.archive_search.specs.Pages.{IsPageOf, hits_at};

use crate::page::Page;
use archive_query::{Ask, Facts, Subject};
use news_io::Keeper;
use news_room::Room;
use news_types::{Answer, Memory, Query};
use publications::Published;
use std::alloc::Global;

/// What a query finds among the publications of a room: how many, and the numbers of a page of 100. No story is copied.
pub fn search<K: Keeper>(
    alloc: Global,
    room: &Room<K>,
    query: &Ask,
    page: u32,
) -> Result<Page, Memory>
    requires { SomeBook K.keeper room.now }
    ensures { IfOk result (λ found. (b : Book) → Stands K.keeper room.now b → IsPageOf (hits b.list (query_of query.now)) page found) }
{
    let count = publication_count(room)?;
    let mut found = Page::new(alloc);
    for before in 0..count {
        ask_one(alloc, room, query, page, before + 1, &mut found)?;
    }
    Ok(found)
}

/// How many publications a room has.
fn publication_count<K: Keeper>(room: &Room<K>) -> Result<u32, Memory>
    requires { SomeBook K.keeper room.now }
    ensures { IfOk result (λ count. (b : Book) → Stands K.keeper room.now b → count ≡ length (pubs b.list)) }
{
    let answer = room.ask(&Query::Check)?;
    match answer {
        Answer::Check { publications, .. } => Ok(publications),
        _ => unreachable!(),
    }
}

/// Asks a query of the publication of that number, which is one more on the page where the query is true of it.
fn ask_one<K: Keeper>(
    alloc: Global,
    room: &Room<K>,
    query: &Ask,
    page: u32,
    number: u32,
    found: &mut Page,
) -> Result<(), Memory>
    requires { found.old.total < 4294967295 }
    ensures page { (b : Book) (numbers : List ℕ) → Stands K.keeper room.now b → IsPageOf numbers page found.old
        → OnOk result (IsPageOf (numbers ++ hits_at (query_of query.now) (publication_at number (pubs b.list))) page found.new) }
    ensures total { OnOk result (found.new.total ≤ found.old.total + 1) }
{
    let Some(published) = room.published(number) else {
        return Ok(());
    };
    if !is_meant(alloc, query, number, published)? {
        return Ok(());
    }
    found.add(page, number)
}

/// Whether a query is true of the publication of that number.
fn is_meant(alloc: Global, query: &Ask, number: u32, published: &Published) -> Result<bool, Memory>
    ensures { IfOk result (λ meant. meant ≡ meaning (query_of query.now) (publication_of number published.now)) }
{
    let facts = Facts {
        number,
        item: published.item,
        version: published.version,
        kind: published.kind,
        release: published.release,
    };
    let mut subject = Subject::new(alloc, facts, published.story.as_story());
    query.holds(&mut subject)
}
