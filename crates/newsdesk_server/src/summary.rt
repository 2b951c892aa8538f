//! What a server prints at its end.
ghost use Rattle.std.specs.Prelude.{◌≡◌, IfOk};
ghost use Rattle.news_types.specs.Books.{Book};
ghost use Rattle.news_room.specs.Stands.{Stands, SomeBook};
ghost use Rattle.run_status.specs.Output.{Told};
ghost use Rattle.run_status.specs.Status.{line_of};
ghost use Rattle.newsdesk_server.specs.Summary.{summary_at, status_of, IsPrinted};

use feed_reports::summary_text;
use news_io::{Keeper, Sink, write_through};
use news_room::Room;
use news_types::{Answer, Bytes, Memory, Query};
use run_status::{Status, tell_status};
use server_roles::Ending;
use std::alloc::Global;

/// The summary of a room's list.
fn summary_of<K: Keeper>(alloc: Global, room: &Room<K>) -> Result<Bytes, Memory>
    requires { SomeBook K.keeper room.now }
    ensures { IfOk result (λ text. (b : Book) → Stands K.keeper room.now b → text ≡ summary_at b.list) }
{
    match room.ask(&Query::Queue)? {
        Answer::Queue(rows) => summary_text(alloc, room.front(), rows.as_slice()),
        _ => unreachable!(),
    }
}

/// The status of an end.
fn status_of(ending: Ending) -> Status
    ensures { result ≡ status_of ending }
{
    match ending {
        Ending::Stopped { .. } => Status::Done,
        Ending::DoorFault => Status::Input,
    }
}

/// Tells a status, and gives it.
pub(crate) fn tell<O: Sink>(output: &mut O, status: Status) -> Status
    ensures status { result ≡ status }
    ensures told { Told O.sink output.old output.new (line_of status) }
{
    tell_status(output, status);
    status
}

/// Prints the summary of a room's list behind the roles' end, and tells the status.
pub(crate) fn tell_summary<O: Sink, K: Keeper>(
    alloc: Global,
    output: &mut O,
    room: &Room<K>,
    ending: Ending,
) -> Status
    requires { SomeBook K.keeper room.now }
    ensures { (b : Book) → Stands K.keeper room.now b → IsPrinted O.sink (summary_at b.list) (status_of ending) output.old output.new result }
{
    let Ok(summary) = summary_of(alloc, room) else {
        return tell(output, Status::Memory);
    };
    match write_through(output, summary.as_slice()) {
        Ok(()) => tell(output, status_of(ending)),
        Err(_) => Status::Output,
    }
}
