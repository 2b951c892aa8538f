//! A query of the archive.
ghost use Rattle.news_types.specs.Books.{Book};
ghost use Rattle.news_room.specs.Stands.{Stands, SomeBook};
ghost use Rattle.newsdesk_cli.specs.Archive.{IsArchive, IsAsked};

use crate::opening::open_noticed;
use crate::telling::{tell_answer, tell_trouble};
use archive_search::answer_text;
use list_marks::Notices;
use news_io::{Disk, Keeper, Sink};
use news_room::Room;
use news_types::Memory;
use std::alloc::Global;
use store_files::Trouble;

/// Opens the log and its side, and answers a query of their list behind so many pages. Nothing is released first.
#[tactic(none)]
pub(crate) fn ask_archive<O: Sink, D: Disk, N: Notices>(
    alloc: Global,
    output: &mut O,
    log: D,
    side: D,
    page: u32,
    query: &str,
    notices: &mut N,
) -> (u8, D, D)
    ensures { IsArchive D.disk O.sink page query.now log result.1 side result.2 output.old output.new result.0 }
{
    match open_noticed(alloc, log, side, notices) {
        Ok(room) => {
            let status = tell_query(alloc, output, &room, page, query);
            let (log, side) = room.into_keeper().into_disks();
            (status, log, side)
        }
        Err((log, side, trouble)) => (tell_trouble(output, trouble), log, side),
    }
}

/// Tells the answer to a query, and gives the status.
fn tell_query<O: Sink, K: Keeper>(
    alloc: Global,
    output: &mut O,
    room: &Room<K>,
    page: u32,
    query: &str,
) -> u8
    requires { SomeBook K.keeper room.now }
    ensures { (b : Book) → Stands K.keeper room.now b → IsAsked O.sink b.list page query.now output.old output.new result }
{
    match answer_text(alloc, room, page, query) {
        Ok(text) => tell_answer(output, text.as_slice()),
        Err(Memory) => tell_trouble(output, Trouble::Memory),
    }
}
