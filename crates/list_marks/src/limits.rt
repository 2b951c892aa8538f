//! How much of each limit a room uses.
ghost use Rattle.std.specs.Prelude.{◌≡◌, ◌++◌, string_bytes, IfOk, OnOk};
ghost use Rattle.news_types.specs.Books.{Book};
ghost use Rattle.news_room.specs.Stands.{Stands, SomeBook};
ghost use Rattle.room_reports.specs.Written.{IsWrittenOut};
ghost use Rattle.list_marks.specs.Limits.{limit_line, limits_lines, near_limits, used_of};

use crate::limited::{Limited, all_limited};
use crate::names::name_count;
use crate::output::write_out;
use news_io::{Keeper, Sink};
use news_room::Room;
use run_status::{Status, tell_status};
use std::alloc::{AllocError, Global};
use std::fmt::Write;

/// Writes a line for each limit of the store of a room, with how much of it is used, and gives the status.
///
/// It is 0 where all lines were written and have passed on, 5 where the output failed, and 9 where there was no memory, with the
/// line of that status behind whole lines or none. Nothing is changed.
pub fn tell_limits<O: Sink, K: Keeper>(alloc: Global, output: &mut O, room: &Room<K>) -> u8
    requires { SomeBook K.keeper room.now }
    ensures { (b : Book) → Stands K.keeper room.now b → IsWrittenOut O.sink (limits_lines b.list (K.keeper.used room.now.keeper)) output.old output.new result }
{
    match limits_text(alloc, room) {
        Ok(text) => write_out(output, text.as_bytes()),
        Err(_) => tell_status(output, Status::Memory),
    }
}

/// What the store of a room has more than 80 of 100 of its limit of, in the order in which limits are told. The only error is want
/// of memory.
pub fn near_limits<K: Keeper>(alloc: Global, room: &Room<K>) -> Result<Vec<Limited>, AllocError>
    requires { SomeBook K.keeper room.now }
    ensures { IfOk result (λ near. (b : Book) → Stands K.keeper room.now b → near.items ≡ near_limits b.list (K.keeper.used room.now.keeper)) }
{
    let all = all_limited();
    let mut near = Vec::new(alloc);
    for limited in &all {
        if limited.is_near(used_of(room, *limited)) {
            near.push(*limited)?;
        }
    }
    Ok(near)
}

/// The lines of all limits.
fn limits_text<K: Keeper>(alloc: Global, room: &Room<K>) -> Result<String, AllocError>
    requires { SomeBook K.keeper room.now }
    ensures { IfOk result (λ text. (b : Book) → Stands K.keeper room.now b → string_bytes text ≡ limits_lines b.list (K.keeper.used room.now.keeper)) }
{
    let all = all_limited();
    let mut text = String::new(alloc);
    for limited in &all {
        put_line(&mut text, *limited, used_of(room, *limited))?;
    }
    Ok(text)
}

/// Appends the line of a limit of which so much is used.
#[tactic(auto, unfolding(crate::specs::Limits::limit_line))]
fn put_line(text: &mut String, limited: Limited, used: u64) -> Result<(), AllocError>
    ensures { OnOk result (string_bytes text.new ≡ string_bytes text.old ++ limit_line limited used) }
{
    writeln!(
        text,
        "{{\"limit\":{},\"of\":\"{}\",\"used\":{used}}}",
        limited.limit(),
        limited.word()
    )
}

/// How much of it a room uses.
fn used_of<K: Keeper>(room: &Room<K>, limited: Limited) -> u64
    requires { SomeBook K.keeper room.now }
    ensures { (b : Book) → Stands K.keeper room.now b → result ≡ used_of b.list (K.keeper.used room.now.keeper) limited }
{
    match limited {
        Limited::Items => u64::from(room.newsroom().stories().item_count()),
        Limited::Publications => u64::from(room.newsroom().stories().publication_count()),
        Limited::Log => room.size(),
        Limited::Things(of) => name_count(room.newsroom().rules(), of),
    }
}
