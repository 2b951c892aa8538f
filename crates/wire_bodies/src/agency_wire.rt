// The messages of a wire as agencies send them.
ghost use Rattle.std.specs.Prelude.{◌≡◌, ◌<◌, ◌≤◌, ◌+◌, ◌^◌, ℕ, List, [], ◌∷◌, ◌++◌, false, map, OnOk, IfOk, IfErr, All, length};
ghost use Rattle.agency_wires.specs.Gives.{gives};
ghost use Rattle.agency_wires.specs.Messages.{messages};
ghost use Rattle.wire_bodies.specs.Bodies.{agency_member, IsFault, IsBody, FitsMember};

use crate::member::{BodyFault, BodyMember, keep};
use crate::reading::PIECE;
use agency_runs::too_long;
use agency_wires::{Found, Reader};
use news_types::{Bytes, Memory};
use std::alloc::Global;

fn member_of(alloc: Global, found: Found) -> Result<BodyMember, Memory>
    ensures { IfOk result (λ member. member ≡ agency_member found) }
{
    match found {
        Found::Message { at, bytes } => Ok(BodyMember::Message { at, bytes }),
        Found::TooLong { at } => {
            let Ok(line) = too_long(alloc, at) else {
                return Err(Memory);
            };
            Ok(BodyMember::Line(Bytes::of(line)))
        }
    }
}

/// Keeps what was found.
fn keep_found(alloc: Global, found: Found, members: &mut Vec<BodyMember>) -> Result<(), BodyFault>
    requires { length members.old.items ≤ 4096 }
    ensures kept { OnOk result (members.new.items ≡ members.old.items ++ agency_member found ∷ []) }
    ensures few { OnOk result (length members.new.items ≤ 4096) }
    ensures fault { IfErr result (IsFault (members.old.items ++ agency_member found ∷ [])) }
{
    let member = member_of(alloc, found)?;
    keep(members, member)
}

/// Keeps what the reader has ready.
fn keep_ready(
    alloc: Global,
    reader: &mut Reader,
    members: &mut Vec<BodyMember>,
) -> Result<(), BodyFault>
    requires { length members.old.items ≤ 4096 }
    ensures kept { OnOk result (members.new.items ≡ members.old.items ++ map agency_member reader.old.ready) }
    ensures few { OnOk result (length members.new.items ≤ 4096) }
    ensures rest { OnOk result (reader.new ≡ record reader.old { ready = [] }) }
    ensures fault { IfErr result (IsFault (members.old.items ++ map agency_member reader.old.ready)) }
{
    while let Some(found) = reader.next() {
        if let Err(why) = keep_found(alloc, found, members) {
            return Err(why);
        }
    }
    Ok(())
}

/// Keeps what the next piece of the wire decides.
fn keep_piece(
    alloc: Global,
    reader: &mut Reader,
    piece: &[u8],
    members: &mut Vec<BodyMember>,
) -> Result<(), BodyFault>
    requires open { reader.old.ended ≡ false }
    requires room { reader.old.at + length piece.now < 2 ^ 64 }
    requires few { length members.old.items ≤ 4096 }
    ensures open { OnOk result (reader.new.ended ≡ false) }
    ensures at { OnOk result (reader.new.at ≡ reader.old.at + length piece.now) }
    // Whatever follows, with it the members are those that there would have been together with the piece.
    ensures kept { OnOk result ((more : List ℕ) → members.new.items ++ map agency_member (gives reader.new more) ≡ members.old.items ++ map agency_member (gives reader.old (piece.now ++ more))) }
    ensures few { OnOk result (length members.new.items ≤ 4096) }
    ensures fault { IfErr result (λ fault. (more : List ℕ) → IsFault (members.old.items ++ map agency_member (gives reader.old (piece.now ++ more))) fault) }
{
    reader.feed(piece)?;
    if let Err(why) = keep_ready(alloc, reader, members) {
        return Err(why);
    }
    Ok(())
}

/// Keeps what the end of the wire decides.
fn keep_last(
    alloc: Global,
    reader: &mut Reader,
    members: &mut Vec<BodyMember>,
) -> Result<(), BodyFault>
    requires { length members.old.items ≤ 4096 }
    ensures kept { OnOk result (members.new.items ≡ members.old.items ++ map agency_member (gives reader.old [])) }
    ensures few { OnOk result (length members.new.items ≤ 4096) }
    ensures fault { IfErr result (IsFault (members.old.items ++ map agency_member (gives reader.old []))) }
{
    reader.finish()?;
    if let Err(why) = keep_ready(alloc, reader, members) {
        return Err(why);
    }
    Ok(())
}

/// Cuts the messages out of a wire in pieces, so that no more members than a body may have, and those of one piece, are
/// held.
pub(crate) fn read_agency_wire(alloc: Global, body: &[u8]) -> Result<Vec<BodyMember>, BodyFault>
    ensures value { IsBody (map agency_member (messages body.now)) result }
    ensures fits { IfOk result (λ members. All FitsMember members.items) }
{
    let mut reader = Reader::new(alloc)?;
    let mut members = Vec::new(alloc);
    let mut rest = body;
    while !rest.is_empty() {
        let (piece, later) = rest.split_at(PIECE.min(rest.len()));
        if let Err(why) = keep_piece(alloc, &mut reader, piece, &mut members) {
            return Err(why);
        }
        rest = later;
    }
    if let Err(why) = keep_last(alloc, &mut reader, &mut members) {
        return Err(why);
    }
    Ok(members)
}
