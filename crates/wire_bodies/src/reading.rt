// A body is read whole.
ghost use Rattle.std.specs.Prelude.{IfOk, All};
ghost use Rattle.wire_bodies.specs.Bodies.{members_of, FitsMember, IsBody};

use crate::agency_wire::read_agency_wire;
use crate::item::{read_agency_items, read_item};
use crate::member::{BodyFault, BodyMember};
use crate::wire::read_wire;
use command_words::IngestFormat;
use std::alloc::Global;

/// How many bytes of a wire are looked at before its members are counted.
pub(crate) const PIECE: usize = 4096;

/// Reads the members of a body in this format, in order.
///
/// # Errors
///
/// The body has more than 4,096 members, or there is no memory for it. Nothing is kept then. Of a wire, what stands behind
/// the member that is too many is not looked at.
pub fn read_members(
    alloc: Global,
    format: IngestFormat,
    body: &[u8],
) -> Result<Vec<BodyMember>, BodyFault>
    ensures value { IsBody (members_of format body.now) result }
    ensures fits { IfOk result (λ members. All FitsMember members.items) }
{
    match format {
        IngestFormat::Wire => read_wire(alloc, body),
        IngestFormat::Item => read_item(alloc, body),
        IngestFormat::AgencyWire => read_agency_wire(alloc, body),
        IngestFormat::AgencyItems => read_agency_items(alloc, body),
    }
}
