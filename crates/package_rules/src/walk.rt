//! What a package holds, level by level.
ghost use Rattle.std.specs.Prelude.{◌≡◌, ◌+◌, ◌≤◌, IfOk, OnOk};
ghost use Rattle.news_types.specs.Books.{Book};
ghost use Rattle.news_room.specs.Stands.{Stands, SomeBook};
ghost use Rattle.package_rules.specs.Opening.{contents as contents_of, members_in, number_below, with_opened, Walk};
ghost use Rattle.package_rules.specs.Walking.{IsAt};

use crate::lines::{Contents, Steps, is_new, put_line};
use crate::text::named_members;
use news_io::Keeper;
use news_room::Room;
use news_types::{Answer, Memory, Query};
use package_members::Members;
use std::alloc::Global;
use std::collections::HashSet;

/// How deep a package is opened.
const MOST_LEVELS: u32 = 32;

/// The members of a publication, each with the newest publication of its item before it, which is opened in its place, one
/// level deeper.
///
/// No publication is opened twice, and none 32 levels deep: however packages hold each other, its calls nest at most 33 deep,
/// and there are at most 64 lines for each publication. A number that is no publication has no lines, and neither has a
/// publication whose story is not composite with the text of a package.
pub fn contents<K: Keeper>(alloc: Global, room: &Room<K>, number: u32) -> Result<Contents, Memory>
    requires { SomeBook K.keeper room.now }
    ensures { IfOk result (λ lines. (b : Book) → Stands K.keeper room.now b → lines ≡ contents_of b.list number) }
{
    let mut steps = Steps {
        lines: Vec::new(alloc),
        opened: HashSet::new(alloc),
    };
    open_publication(alloc, room, &mut steps, number, MOST_LEVELS, 1)?;
    Ok(Contents::of(steps.lines))
}

/// Opens a publication, so many levels deep: the lines of its members stand at this depth.
fn open_publication<K: Keeper>(
    alloc: Global,
    room: &Room<K>,
    steps: &mut Steps,
    number: u32,
    levels: u32,
    depth: u32,
) -> Result<(), Memory>
    requires stands { SomeBook K.keeper room.now }
    requires deep { levels + depth ≤ 33 }
    ensures { (b : Book) (w : Walk) → Stands K.keeper room.now b → IsAt steps.old w → OnOk result (IsAt steps.new (with_opened b.list levels depth number w)) }
{
    if levels == 0 {
        return Ok(());
    }
    let new = is_new(steps, number)?;
    if !new {
        return Ok(());
    }
    let members = members_of(alloc, room, number)?;
    for member in members.as_slice() {
        let publication = number_before(room, member.item, number)?;
        put_line(steps, depth, member, publication)?;
        open_publication(alloc, room, steps, publication, levels - 1, depth + 1)?;
    }
    Ok(())
}

/// The members of a publication: none where there is no such publication, or it is no package.
pub fn members_of<K: Keeper>(alloc: Global, room: &Room<K>, number: u32) -> Result<Members, Memory>
    requires { SomeBook K.keeper room.now }
    ensures { IfOk result (λ members. (b : Book) → Stands K.keeper room.now b → members ≡ members_in b.list number) }
{
    let answer = room.ask(&Query::Publication { number })?;
    match answer {
        Answer::Publication(publication) => named_members(alloc, &publication.story),
        _ => Ok(Members::of(Vec::new(alloc))),
    }
}

/// The number of the newest publication of an item before this one, or 0.
fn number_before<K: Keeper>(room: &Room<K>, item: u32, below: u32) -> Result<u32, Memory>
    requires { SomeBook K.keeper room.now }
    ensures { IfOk result (λ number. (b : Book) → Stands K.keeper room.now b → number ≡ number_below b.list item below) }
{
    match room.ask(&Query::LastOf { item, below })? {
        Answer::Number { number } => Ok(number),
        _ => unreachable!(),
    }
}
