//! Writing an entry.

ghost use Rattle.std.specs.Prelude.{◌≡◌, ◌++◌, OnOk, IfOk};
ghost use Rattle.entry_codec.specs.Spelling.{act as act_bytes, entry_bytes, framed};
ghost use Rattle.entry_codec.specs.Fits.{Fits, FitsAct};
ghost use Rattle.entry_codec.specs.Formed.{IsFormedAct, IsEntry};

use crate::field::{put_byte, put_u32, put_u64};
use crate::story::{credit_tag, put_incoming};
use crate::write_commands::put_command;
use byte_formats::put_name;
use news_types::{Act, Bytes, Entry, Memory};
use std::alloc::{AllocError, Global};

/// The bytes of most entries go into so many.
const AHEAD: usize = 512;

/// The record of an entry: four bytes of length, the entry's bytes, and the next gate, 0.
pub fn encode(alloc: Global, entry: &Entry) -> Result<Bytes, Memory>
    requires { Fits entry.now }
    ensures bytes { IfOk result (λ bytes. bytes ≡ framed (entry_bytes entry.now)) }

    // It is read again.
    ensures entry { OnOk result (IsEntry entry.now) }
{
    let mut payload = Vec::with_capacity(alloc, AHEAD)?;
    put_u64(&mut payload, entry.moment)?;
    put_act(&mut payload, &entry.act)?;
    let payload = payload.as_slice();
    let mut record = Vec::with_capacity(alloc, payload.len().saturating_add(5))?;
    put_u32(&mut record, payload.len() as u32)?;
    record.extend_from_slice(payload)?;
    record.push(0)?;
    Ok(Bytes::of(record))
}

/// Writes an act: its tag, and its fields.
pub fn put_act(out: &mut Vec<u8>, act: &Act) -> Result<(), AllocError>
    requires { FitsAct act.now }
    ensures bytes { OnOk result (out.new.items ≡ out.old.items ++ act_bytes act.now) }
    ensures form { OnOk result (IsFormedAct act.now) }
{
    match act {
        Act::Advance => put_byte(out, 1),
        Act::Attempt { subscriber, k } => {
            put_byte(out, 2)?;
            put_name(out, subscriber)?;
            put_u32(out, *k)?;
            Ok(())
        }
        Act::Receipt { subscriber, n } => {
            put_byte(out, 3)?;
            put_name(out, subscriber)?;
            put_u32(out, *n)?;
            Ok(())
        }
        Act::Halt => put_byte(out, 4),
        Act::Ingest { provider, incoming } => {
            put_byte(out, credit_tag(&incoming.story, 5, 7))?;
            put_name(out, provider)?;
            put_incoming(out, incoming)?;
            Ok(())
        }
        Act::Request {
            caller,
            number,
            command,
        } => {
            put_byte(out, 6)?;
            put_name(out, caller)?;
            put_u64(out, *number)?;
            put_command(out, command)?;
            Ok(())
        }
    }
}
