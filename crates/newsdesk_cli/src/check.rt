//! What a log holds, as a line.
ghost use Rattle.std.specs.Prelude.{◌≡◌, IfOk};
ghost use Rattle.news_types.specs.Books.{Book};
ghost use Rattle.news_room.specs.Stands.{Stands, SomeBook};
ghost use Rattle.newsdesk_cli.specs.Command.{check_line as line_of_list, IsChecked};

use crate::telling::{tell_answer, tell_trouble};
use news_io::{Keeper, Sink};
use news_room::Room;
use news_types::{Memory, Query};
use room_runs::question_answered;
use std::alloc::Global;
use store_files::Trouble;

/// The line that says how many entries and publications a room has.
fn check_text<K: Keeper>(alloc: Global, room: &Room<K>) -> Result<Vec<u8>, Memory>
    requires { SomeBook K.keeper room.now }
    ensures { IfOk result (λ text. (b : Book) → Stands K.keeper room.now b → text.items ≡ line_of_list b.list) }
{
    let answer = room.ask(&Query::Check)?;
    let Ok(mut text) = question_answered(alloc, &answer) else {
        return Err(Memory);
    };
    text.push(b'\n')?;
    Ok(text)
}

/// Tells how many entries and publications a room has, and gives the status.
pub(crate) fn check_line<O: Sink, K: Keeper>(alloc: Global, output: &mut O, room: &Room<K>) -> u8
    requires { SomeBook K.keeper room.now }
    ensures { (b : Book) → Stands K.keeper room.now b → IsChecked O.sink b.list output.old output.new result }
{
    match check_text(alloc, room) {
        Ok(text) => tell_answer(output, &text),
        Err(Memory) => tell_trouble(output, Trouble::Memory),
    }
}
