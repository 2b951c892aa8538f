//! What is told of packages, as objects: each is compact JSON without a line end, with keys in byte order.
ghost use Rattle.std.specs.Prelude.{◌≡◌, IfOk};
ghost use Rattle.news_types.specs.Books.{Book};
ghost use Rattle.news_room.specs.Stands.{Stands, SomeBook};
ghost use Rattle.told_objects.specs.Seen.{seen};
ghost use Rattle.package_rules.specs.Report as said;
ghost use Rattle.package_rules.specs.Report.{contents_object as object_of, told_contents};

use crate::association::association_object;
use crate::lines::Line;
use crate::walk::{contents, members_of};
use news_io::Keeper;
use news_room::Room;
use news_types::{Bytes, Memory};
use std::alloc::{AllocError, Global};
use told_objects::{Object, Shown};
use uuid::Uuid;

impl Shown for Line {
    ghost members = { said.line_row };

    fn shown(&self, alloc: Global) -> Result<Object, AllocError> {
        Object::new(alloc)
            .number("depth", u64::from(self.depth))?
            .number("item", u64::from(self.item))?
            .number("publication", u64::from(self.publication))?
            .text("role", self.role.as_str())
    }
}

/// What a publication holds: its associations in this store, and a row for each member. A number that is no publication, and
/// a publication that is no package, has no rows and the associations `{}`.
pub fn contents_object<K: Keeper>(
    alloc: Global,
    room: &Room<K>,
    store: Uuid,
    number: u32,
) -> Result<Bytes, Memory>
    requires { SomeBook K.keeper room.now }
    ensures { IfOk result (λ told. (b : Book) → Stands K.keeper room.now b → told ≡ object_of b.list store number) }
{
    let lines = contents(alloc, room, number)?;
    let members = members_of(alloc, room, number)?;
    let associations = association_object(alloc, members.as_slice(), store)?;
    contents_told(alloc, associations, lines.as_slice())
}

/// These associations and rows.
fn contents_told(alloc: Global, associations: Object, rows: &[Line]) -> Result<Bytes, Memory>
    ensures { IfOk result (λ told. told ≡ told_contents (seen associations) rows.now) }
{
    Object::answering(alloc, "contents")?
        .inner("associations", associations)?
        .list("rows", rows)?
        .written()
}

/// That nobody has every member of a package, of a list of so many entries.
pub fn no_readers_text(alloc: Global, front: u64) -> Result<Bytes, Memory>
    ensures { IfOk result (λ text. text ≡ said.no_readers_text front) }
{
    Object::answering(alloc, "no-readers")?
        .number("front", front)?
        .written()
}
