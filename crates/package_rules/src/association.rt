//! The associations of a package, as ninjs has them.
ghost use Rattle.std.specs.Prelude.{◌≡◌, IfOk};
ghost use Rattle.serde_json.specs.Data.{no_members};
ghost use Rattle.told_objects.specs.Seen.{seen};
ghost use Rattle.package_rules.specs.Associations.{associated, association, association_bytes};

use news_types::{Bytes, Memory};
use package_members::Member;
use std::alloc::Global;
use told_objects::Object;
use uuid::Uuid;

/// The associations of these members of a store, as one object: each role with an object that has the item's `uri`.
pub fn associations(alloc: Global, members: &[Member], store: Uuid) -> Result<Bytes, Memory>
    ensures { IfOk result (λ bytes. bytes ≡ association_bytes store members.now) }
{
    association_object(alloc, members, store)?.written()
}

/// The object of these members' associations.
pub(crate) fn association_object(
    alloc: Global,
    members: &[Member],
    store: Uuid,
) -> Result<Object, Memory>
    ensures { IfOk result (λ told. seen told ≡ associated store members.now no_members) }
{
    let mut told = Object::new(alloc);
    for member in members {
        let inside = association_of(alloc, member, store)?;
        told = told.inner(member.role.as_str(), inside)?;
    }
    Ok(told)
}

/// The object of a member: the URI of its item is `urn:uuid:` and the version 5 UUID of the item's name in the store.
fn association_of(alloc: Global, member: &Member, store: Uuid) -> Result<Object, Memory>
    ensures { IfOk result (λ told. seen told ≡ association store member.now) }
{
    let item = member.item;
    let name = format!(in alloc; "item:{item}")?;
    let identifier = Uuid::new_v5(&store, name.as_bytes());
    let mut buffer = Uuid::encode_buffer();
    Ok(Object::new(alloc).text("uri", identifier.urn().encode_lower(&mut buffer))?)
}
