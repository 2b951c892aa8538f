//! Fields written behind the bytes of a vector.

ghost use Rattle.std.specs.Prelude.{◌≡◌, ◌++◌, ◌<◌, ◌^◌, ℕ, length, OnOk, IsUtf8, decimal};
ghost use Rattle.byte_formats.specs.Spelling.{IsName, name as name_bytes, text as text_bytes};
ghost use Rattle.byte_formats.specs.Varint.{groups, top, varint_bytes};

use itoa::Buffer;
use news_types::{Name, Text};
use std::alloc::AllocError;

/// Appends a byte of length and the name.
pub fn put_name(out: &mut Vec<u8>, name: &Name) -> Result<(), AllocError>
    ensures bytes { OnOk result (out.new.items ≡ out.old.items ++ name_bytes name.now) }
    ensures form { OnOk result (IsName name.now) }
{
    let bytes = name.as_bytes();
    out.push(bytes.len() as u8)?;
    out.extend_from_slice(bytes)
}

/// Appends four bytes of length and the text.
pub fn put_text(out: &mut Vec<u8>, text: &Text) -> Result<(), AllocError>
    requires { length text.now < 2 ^ 32 }
    ensures bytes { OnOk result (out.new.items ≡ out.old.items ++ text_bytes text.now) }
    ensures form { OnOk result (IsUtf8 text.now) }
{
    let bytes = text.as_str().as_bytes();
    out.extend_from_slice(&(bytes.len() as u32).to_be_bytes())?;
    out.extend_from_slice(bytes)
}

/// Appends a number in 7-bit groups, the low group first, in the fewest bytes.
pub fn put_varint(out: &mut Vec<u8>, number: u64) -> Result<(), AllocError>
    ensures { OnOk result (out.new.items ≡ out.old.items ++ varint_bytes number) }
{
    put_groups(out, number)?;
    Ok(())
}

fn put_groups(out: &mut Vec<u8>, number: u64) -> Result<(), AllocError>
    ensures { OnOk result ((more : ℕ) → number < top more → out.new.items ≡ out.old.items ++ groups more number) }
{
    if number < 128 {
        out.push(number as u8)?;
        return Ok(());
    }
    out.push((128 + number % 128) as u8)?;
    put_groups(out, number / 128)?;
    Ok(())
}

/// Appends a number in decimal.
pub fn put_decimal(out: &mut Vec<u8>, number: u32) -> Result<(), AllocError>
    ensures { OnOk result (out.new.items ≡ out.old.items ++ decimal number) }
{
    let mut digits = Buffer::new();
    out.extend_from_slice(digits.format(number).as_bytes())
}
