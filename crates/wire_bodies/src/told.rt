// What a member comes to on the day of its turn.
ghost use Rattle.std.specs.Prelude.{◌<◌, ◌+◌, ◌^◌, length};
ghost use Rattle.agency_wires.specs.Reading.{told};
ghost use Rattle.wire_bodies.specs.Bodies.{FitsMember, message_told, told_of, IsToldAt};

use crate::member::BodyMember;
use agency_runs::{Told, read_at};
use news_types::{Bytes, Memory, Moment};
use std::alloc::Global;

/// What a member comes to on the day of this reading, a moment in seconds since 1970: the story, or the line that tells its
/// fault, without a line feed. Only a message is read by the reading.
///
/// # Errors
///
/// Want of memory.
pub fn told_at(alloc: Global, member: BodyMember, now: Moment) -> Result<Told, Memory>
    requires { FitsMember member }
    ensures { IsToldAt (told_of now member) result }
{
    match member {
        BodyMember::Story(incoming) => Ok(Told::Story(incoming)),
        BodyMember::Message { at, bytes } => message_at(alloc, at, bytes, now),
        BodyMember::Line(text) => Ok(Told::Line(text.into_vec())),
    }
}

/// Reads a message on the day of this reading.
fn message_at(alloc: Global, at: u64, bytes: Bytes, now: Moment) -> Result<Told, Memory>
    requires { at + 1 + length bytes < 2 ^ 63 }
    ensures { IsToldAt (message_told at (told now bytes)) result }
{
    match read_at(alloc, at, bytes.as_slice(), now) {
        Ok(told) => Ok(told),
        Err(_) => Err(Memory),
    }
}
