//! To whom a package goes: the subscribers who have every member.
ghost use Rattle.std.specs.Prelude.{◌≡◌, ◌≤◌, IfOk, filter, length};
ghost use Rattle.news_types.specs.Answers.{in_order};
ghost use Rattle.news_types.specs.Books.{Book};
ghost use Rattle.news_types.specs.Products.{subscribers as subscribers_of};
ghost use Rattle.news_room.specs.Stands.{Stands, SomeBook};
ghost use Rattle.package_rules.specs.Finding.{names_of};
ghost use Rattle.package_rules.specs.Readers.{has_all, readers};

use news_io::Keeper;
use news_room::Room;
use news_types::{Answer, Memory, Name, Names, Query, QueueRow, QueueRows};
use package_members::Member;
use std::alloc::Global;

/// The subscribers, in byte order, whose feed has a publication of each member, the last of which is no kill or recall.
pub(crate) fn find_readers<K: Keeper>(
    alloc: Global,
    room: &Room<K>,
    members: &[Member],
) -> Result<Names, Memory>
    requires { SomeBook K.keeper room.now }
    ensures names { IfOk result (λ names. (b : Book) → Stands K.keeper room.now b → names ≡ readers b.list members.now) }
    ensures few { IfOk result (λ names. length names ≤ 256) }
{
    let rows = subscribers(room)?;
    having_every(alloc, room, rows.as_slice(), members)
}

/// Those of these subscribers whose feed has every member.
fn having_every<K: Keeper>(
    alloc: Global,
    room: &Room<K>,
    rows: &[QueueRow],
    members: &[Member],
) -> Result<Names, Memory>
    requires { SomeBook K.keeper room.now }
    ensures { IfOk result (λ names. (b : Book) → Stands K.keeper room.now b → names ≡ filter (has_all b.list members.now) (names_of rows.now)) }
{
    let mut names = Vec::new(alloc);
    for row in rows {
        if has_every(room, &row.subscriber, members) {
            names.push(row.subscriber)?;
        }
    }
    Ok(Names::of(names))
}

/// All subscribers, in byte order.
fn subscribers<K: Keeper>(room: &Room<K>) -> Result<QueueRows, Memory>
    requires { SomeBook K.keeper room.now }
    ensures { IfOk result (λ rows. (b : Book) → Stands K.keeper room.now b → names_of rows ≡ in_order (subscribers_of b.list)) }
{
    let answer = room.ask(&Query::Queue)?;
    match answer {
        Answer::Queue(rows) => Ok(rows),
        _ => unreachable!(),
    }
}

/// Whether the feed of a subscriber has every member. It takes no memory.
fn has_every<K: Keeper>(room: &Room<K>, subscriber: &Name, members: &[Member]) -> bool
    ensures { (b : Book) → Stands K.keeper room.now b → result ≡ has_all b.list members.now subscriber.now }
{
    members
        .iter()
        .all(|member| room.has_item(subscriber, member.item))
}
