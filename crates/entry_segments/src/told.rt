//! What a segment tells of an act behind its tag.

ghost use Rattle.std.specs.Prelude.{◌≡◌, ◌≤◌, ◌<◌, ◌+◌, ◌++◌, ◌^◌, ℕ, length, OnOk};
ghost use Rattle.news_types.specs.Names.{AreInOrder};
ghost use Rattle.byte_formats.specs.Spelling.{u16 as u16_bytes};
ghost use Rattle.byte_formats.specs.Parts.{boxed_bytes};
ghost use Rattle.byte_formats.specs.Varint.{groups, top, varint_bytes};
ghost use Rattle.entry_segments.specs.Segment.{place};
ghost use Rattle.entry_segments.specs.Told.{told_size, told_bytes};

use crate::names::place_of;
use byte_formats::put_varint;
use news_types::Name;
use std::alloc::AllocError;

/// What a segment tells of an act behind its tag.
#[derive(Clone, Copy)]
pub enum Told {
    Nothing,
    /// Its name's place, and a number.
    Counted { name: Name, number: u32 },
    /// So many bytes, in their length.
    Boxed { len: usize },
}

/// How many bytes it takes.
pub fn told_len(told: &Told) -> usize
    requires { told_size told.now ≤ 2097084 }
    ensures { result ≡ told_size told.now }
{
    match told {
        Told::Nothing => 0,
        Told::Counted { number, .. } => 2 + varint_len(u64::from(*number)),
        Told::Boxed { len } => 4 + *len,
    }
}

/// How many bytes a number has in 7-bit groups.
pub fn varint_len(number: u64) -> usize
    ensures len { result ≡ length (varint_bytes number) }
    ensures few { result ≤ 10 }
{
    groups_len(number)
}

fn groups_len(number: u64) -> usize
    ensures len { (more : ℕ) → number < top more → result ≡ length (groups more number) }
    ensures few { result ≤ 10 }
{
    if number < 128 {
        return 1;
    }
    1 + groups_len(number / 128)
}

/// Writes what is told of an act that has these bytes behind its tag.
pub fn put_told(
    out: &mut Vec<u8>,
    names: &[Name],
    told: &Told,
    rest: &[u8],
) -> Result<(), AllocError>
    requires short { length rest.now < 2 ^ 32 }
    requires few { length names.now ≤ 65535 }
    requires up { AreInOrder names.now }
    ensures { OnOk result (out.new.items ≡ out.old.items ++ told_bytes told.now names.now rest.now) }
{
    match told {
        Told::Nothing => Ok(()),
        Told::Counted { name, number } => {
            put_counted(out, names, name, *number)?;
            Ok(())
        }
        Told::Boxed { .. } => {
            put_boxed(out, rest)?;
            Ok(())
        }
    }
}

/// Writes a name's place, and a number.
fn put_counted(
    out: &mut Vec<u8>,
    names: &[Name],
    name: &Name,
    number: u32,
) -> Result<(), AllocError>
    requires few { length names.now ≤ 65535 }
    requires up { AreInOrder names.now }
    ensures { OnOk result (out.new.items ≡ out.old.items ++ (u16_bytes (place name.now names.now) ++ varint_bytes number)) }
{
    let place = place_of(names, name) as u16;
    out.extend_from_slice(&place.to_be_bytes())?;
    put_varint(out, u64::from(number))?;
    Ok(())
}

/// Writes four bytes of length, and the bytes.
fn put_boxed(out: &mut Vec<u8>, bytes: &[u8]) -> Result<(), AllocError>
    requires { length bytes.now < 2 ^ 32 }
    ensures { OnOk result (out.new.items ≡ out.old.items ++ boxed_bytes bytes.now) }
{
    out.extend_from_slice(&(bytes.len() as u32).to_be_bytes())?;
    out.extend_from_slice(bytes)?;
    Ok(())
}
