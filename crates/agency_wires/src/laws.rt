//! What holds of whole runs of a reader, however the wire is cut, and of identities.
//!
//! The first two public calls state it: a program feeds the reader itself. The third is a law of
//! identities.

ghost use Rattle.std.specs.Prelude.{◌≡◌, ◌+◌, ◌<◌, ◌^◌, ℕ, List, [], ◌∷◌, ◌++◌, true, false, OnOk, IfOk, length};
ghost use Rattle.agency_wires.specs.Gives.{gives, IsPrefixOf};
ghost use Rattle.text7901.specs.Gives.{stream};
ghost use Rattle.agency_wires.specs.Messages.{messages};
ghost use Rattle.agency_wires.specs.Parts.{is_within};
ghost use Rattle.agency_wires.specs.Header.{has_header, source, number};
ghost use Rattle.agency_wires.specs.Identity.{dated, named, identity};

use crate::found::Found;
use crate::reader::Reader;
use news_types::Memory;
use std::alloc::Global;

/// Hands out all that is ready.
pub fn drain(reader: &mut Reader, out: &mut Vec<Found>) -> Result<(), Memory>
    ensures members { OnOk result (out.new.items ≡ out.old.items ++ reader.old.ready) }
    ensures rest { OnOk result (reader.new ≡ record reader.old { ready = [] }) }
{
    while let Some(found) = reader.next() {
        out.push(found)?;
    }
    Ok(())
}

/// What `next` gives for these pieces before the input ends.
pub fn read_so_far(
    alloc: Global,
    reader: &mut Reader,
    pieces: &[Vec<u8>],
) -> Result<Vec<Found>, Memory>
    requires start { (more : List ℕ) → gives reader.old more ≡ messages more }
    requires open { reader.old.ended ≡ false }
    requires fits { reader.old.at + length (stream pieces.now) < 2 ^ 64 }
    // It is a front of what the wire has, whatever follows.
    ensures front { IfOk result (λ v. (more : List ℕ) → IsPrefixOf v.items (messages (stream pieces.now ++ more))) }
    ensures rest { IfOk result (λ v. (more : List ℕ) → v.items ++ gives reader.new more ≡ messages (stream pieces.now ++ more)) }
    ensures open { OnOk result (reader.new.ended ≡ false) }
{
    let mut out = Vec::new(alloc);
    for piece in pieces {
        reader.feed(piece)?;
        drain(reader, &mut out)?;
    }
    Ok(out)
}

/// All that a wire has that comes in these pieces, however it was cut.
pub fn read_all(alloc: Global, pieces: &[Vec<u8>]) -> Result<Vec<Found>, Memory>
    requires { length (stream pieces.now) < 2 ^ 64 }
    ensures { IfOk result (λ v. v.items ≡ messages (stream pieces.now)) }
{
    let mut reader = Reader::new(alloc)?;
    let mut out = read_so_far(alloc, &mut reader, pieces)?;
    reader.finish()?;
    drain(&mut reader, &mut out)?;
    Ok(out)
}

/// Two messages with header lines of the form that are told by one identity have the same source,
/// the same number and the same mark, which is the post-text information without the blanks at its
/// ends and without `NNNN`, or the day where that has no digit; where the identity is not cut.
pub fn identity_law()
    ensures { (line info : List ℕ) (day : ℕ) (line' info' : List ℕ) (day' : ℕ) →
        has_header line ≡ true → has_header line' ≡ true →
        is_within 256 (named line info day) ≡ true → is_within 256 (named line' info' day') ≡ true →
        identity line info day ≡ identity line' info' day' →
        (source line ≡ source line') × (number line ≡ number line') × (dated info day ≡ dated info' day') }
{}
