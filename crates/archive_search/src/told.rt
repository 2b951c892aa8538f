//! The answer to a query, as an object.
ghost use Rattle.std.specs.Prelude.{◌≡◌, IfOk};
ghost use Rattle.news_types.specs.Books.{Book};
ghost use Rattle.news_room.specs.Stands.{Stands, SomeBook};
ghost use Rattle.archive_search.specs.Answers as said;
ghost use Rattle.archive_search.specs.Told.{archive_told};

use crate::asked::{Asked, Hits, ask_archive};
use news_io::Keeper;
use news_room::Room;
use news_types::{Bytes, Memory};
use std::alloc::Global;
use told_objects::Object;

/// What a query of the archive is answered, each as one JSON object without a line end, with keys in byte order.
#[derive(Drop)]
pub enum Told {
    /// How many publications it finds, and those of the page.
    Found(Bytes),
    /// The place from which on the text is no query.
    Refused(Bytes),
}

/// The answer to a query: how many publications it finds, and those of a page; or the place, in bytes, from which on the text is
/// no query. Of a text of more than 65536 bytes that is 65536.
pub fn tell_archive<K: Keeper>(
    alloc: Global,
    room: &Room<K>,
    page: u32,
    query: &str,
) -> Result<Told, Memory>
    requires { SomeBook K.keeper room.now }
    ensures { IfOk result (λ told. (b : Book) → Stands K.keeper room.now b → told ≡ archive_told b.list page query.now) }
{
    match ask_archive(alloc, room, page, query)? {
        Asked::Found(found) => Ok(Told::Found(found_object(alloc, &found)?)),
        Asked::Refused { at } => Ok(Told::Refused(refused_object(alloc, at)?)),
    }
}

/// How many publications were found, and those of a page.
fn found_object(alloc: Global, found: &Hits) -> Result<Bytes, Memory>
    ensures { IfOk result (λ bytes. bytes ≡ said.found_object found.now.total found.now.rows.items) }
{
    Object::answering(alloc, "archive")?
        .list("rows", &found.rows)?
        .number("total", u64::from(found.total))?
        .written()
}

/// That a text is no query from this place on.
pub(crate) fn refused_object(alloc: Global, at: u64) -> Result<Bytes, Memory>
    ensures { IfOk result (λ bytes. bytes ≡ said.refused_object at) }
{
    Object::answering(alloc, "bad-query")?
        .number("at", at)?
        .written()
}
