//! What a package holds.
ghost use Rattle.news_types.specs.Books.{Book};
ghost use Rattle.news_room.specs.Stands.{Stands, SomeBook};
ghost use Rattle.package_rules.specs.Report.{contents_report as report_of};
ghost use Rattle.newsdesk_cli.specs.Packages.{IsContents};
ghost use Rattle.newsdesk_cli.specs.Telling.{IsAnswered};

use crate::opening::open_noticed;
use crate::telling::{tell_answer, tell_trouble};
use list_marks::Notices;
use news_io::{Disk, Keeper, Sink};
use news_room::Room;
use news_types::Memory;
use package_rules::contents_report;
use std::alloc::Global;
use store_files::Trouble;

/// Opens the log and its side, and tells what the publication of this number holds. Nothing is released first.
#[tactic(none)]
pub(crate) fn list_contents<O: Sink, D: Disk, N: Notices>(
    alloc: Global,
    output: &mut O,
    log: D,
    side: D,
    publication: u32,
    notices: &mut N,
) -> (u8, D, D)
    ensures { IsContents D.disk O.sink publication log result.1 side result.2 output.old output.new result.0 }
{
    match open_noticed(alloc, log, side, notices) {
        Ok(room) => {
            let status = tell_contents(alloc, output, &room, publication);
            let (log, side) = room.into_keeper().into_disks();
            (status, log, side)
        }
        Err((log, side, trouble)) => (tell_trouble(output, trouble), log, side),
    }
}

/// Tells what the publication of this number holds, and gives the status.
fn tell_contents<O: Sink, K: Keeper>(
    alloc: Global,
    output: &mut O,
    room: &Room<K>,
    publication: u32,
) -> u8
    requires { SomeBook K.keeper room.now }
    ensures { (b : Book) → Stands K.keeper room.now b → IsAnswered O.sink (report_of b.list b.store publication) output.old output.new result }
{
    match contents_report(alloc, room, room.store(), publication) {
        Ok(text) => tell_answer(output, text.as_slice()),
        Err(Memory) => tell_trouble(output, Trouble::Memory),
    }
}
