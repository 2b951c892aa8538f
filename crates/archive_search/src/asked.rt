//! A text is asked of the archive.
ghost use Rattle.std.specs.Prelude.{◌≡◌, IfOk};
ghost use Rattle.news_types.specs.Books.{Book};
ghost use Rattle.news_room.specs.Stands.{Stands, SomeBook};
ghost use Rattle.archive_query.specs.Query.{hits};
ghost use Rattle.archive_query.specs.View.{query_of};
ghost use Rattle.archive_search.specs.Answers.{AreHits, IsAsked};

use crate::hit::{Hit, hits_of};
use crate::searching::search;
use archive_query::{Ask, QueryFault, parse};
use news_io::Keeper;
use news_room::Room;
use news_types::Memory;
use std::alloc::Global;

/// The place that is told of a query that is too long.
const LONGEST: u64 = 65_536;

/// How many publications a query finds, and those of a page.
#[derive(Drop)]
pub(crate) struct Hits {
    pub(crate) total: u32,
    pub(crate) rows: Vec<Hit>,
}

/// What a query finds, or the place from which on the text is none.
#[derive(Drop)]
pub(crate) enum Asked {
    Found(Hits),
    Refused { at: u64 },
}

/// Asks a text of the publications of a room.
pub(crate) fn ask_archive<K: Keeper>(
    alloc: Global,
    room: &Room<K>,
    page: u32,
    query: &str,
) -> Result<Asked, Memory>
    requires { SomeBook K.keeper room.now }
    ensures { IfOk result (λ asked. (b : Book) → Stands K.keeper room.now b → IsAsked b.list page query.now asked) }
{
    match parse(alloc, query) {
        Ok(ask) => Ok(Asked::Found(find_hits(alloc, room, &ask, page)?)),
        Err(QueryFault::TooLong { .. }) => Ok(Asked::Refused { at: LONGEST }),
        Err(QueryFault::At { at }) => Ok(Asked::Refused { at }),
        Err(QueryFault::TooDeep { at }) => Ok(Asked::Refused { at }),
        Err(QueryFault::Memory) => Err(Memory),
    }
}

/// What a query finds.
fn find_hits<K: Keeper>(alloc: Global, room: &Room<K>, ask: &Ask, page: u32) -> Result<Hits, Memory>
    requires { SomeBook K.keeper room.now }
    ensures { IfOk result (λ found. (b : Book) → Stands K.keeper room.now b → AreHits b.list (query_of ask.now) page found) }
{
    let found = search(alloc, room, ask, page)?;
    let rows = hits_of(alloc, room, found.rows.as_slice())?;
    Ok(Hits {
        total: found.total,
        rows,
    })
}
