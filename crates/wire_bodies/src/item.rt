// A body that is one item, or the items of an agency.
ghost use Rattle.std.specs.Prelude.{◌≡◌, [], ◌∷◌, ◌++◌, map, OnOk, IfOk, All};
ghost use Rattle.news_types.specs.Fits.{FitsIncoming};
ghost use Rattle.agency_items.specs.Items.{items};
ghost use Rattle.wire_run.specs.Members.{one_item};
ghost use Rattle.wire_bodies.specs.Bodies.{item_member, agency_item_member, FitsMember, IsBody};

use crate::faults::{agency_item_fault, item_fault};
use crate::member::{BodyFault, BodyMember, MOST_MEMBERS};
use agency_items::{ItemFault, read_items};
use news_types::{Incoming, Memory};
use ninjs_text::read;
use std::alloc::Global;

/// A body of this one member.
fn alone(alloc: Global, member: BodyMember) -> Result<Vec<BodyMember>, BodyFault>
    ensures value { IsBody (member ∷ []) result }
    ensures fits { FitsMember member → IfOk result (λ members. All FitsMember members.items) }
{
    let mut members = Vec::new(alloc);
    members.push(member)?;
    Ok(members)
}

/// Reads a body that is one item.
pub(crate) fn read_item(alloc: Global, body: &[u8]) -> Result<Vec<BodyMember>, BodyFault>
    ensures value { IsBody (map item_member (one_item body.now)) result }
    ensures fits { IfOk result (λ members. All FitsMember members.items) }
{
    match read(alloc, body) {
        Ok(incoming) => alone(alloc, BodyMember::Story(incoming)),
        Err(fault) => {
            let line = item_fault(alloc, fault)?;
            alone(alloc, BodyMember::Line(line))
        }
    }
}

fn agency_member_of(alloc: Global, told: Result<Incoming, ItemFault>) -> Result<BodyMember, Memory>
    requires { IfOk told FitsIncoming }
    ensures value { IfOk result (λ member. member ≡ agency_item_member told) }
    ensures fits { IfOk result FitsMember }
{
    match told {
        Ok(incoming) => Ok(BodyMember::Story(incoming)),
        Err(fault) => Ok(BodyMember::Line(agency_item_fault(alloc, fault)?)),
    }
}

/// Puts what an item says behind the members that are there.
fn keep_item(
    alloc: Global,
    told: Result<Incoming, ItemFault>,
    members: &mut Vec<BodyMember>,
) -> Result<(), Memory>
    requires { IfOk told FitsIncoming }
    ensures kept { OnOk result (members.new.items ≡ members.old.items ++ agency_item_member told ∷ []) }
    ensures fits { All FitsMember members.old.items → OnOk result (All FitsMember members.new.items) }
{
    members.push(agency_member_of(alloc, told)?)?;
    Ok(())
}

/// Keeps these items, one after the other.
fn keep_each(
    alloc: Global,
    read: Vec<Result<Incoming, ItemFault>>,
) -> Result<Vec<BodyMember>, Memory>
    requires { All (λ told. IfOk told FitsIncoming) read.items }
    ensures value { IfOk result (λ members. members.items ≡ map agency_item_member read.items) }
    ensures fits { IfOk result (λ members. All FitsMember members.items) }
{
    let mut members = Vec::new(alloc);
    for told in read {
        keep_item(alloc, told, &mut members)?;
    }
    Ok(members)
}

/// Reads a body that is an item of an agency, or a list of items.
pub(crate) fn read_agency_items(alloc: Global, body: &[u8]) -> Result<Vec<BodyMember>, BodyFault>
    ensures value { IsBody (map agency_item_member (items body.now)) result }
    ensures fits { IfOk result (λ members. All FitsMember members.items) }
{
    let read = read_items(alloc, body)?;
    if read.len() > MOST_MEMBERS {
        return Err(BodyFault::TooMany);
    }
    Ok(keep_each(alloc, read)?)
}
