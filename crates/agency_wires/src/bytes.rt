//! The bytes that part a wire.

ghost use Rattle.std.specs.Prelude.{◌≡◌, ◌<◌, ◌==◌, length, IfSome};
ghost use Rattle.std.specs.List.{position};
ghost use Rattle.text7901.specs.Fields.{before, behind_byte};
ghost use Rattle.agency_wires.specs.Messages.{ends_line, ends_message};
ghost use Rattle.agency_wires.specs.Parts.{has};

use memchr::memchr;

/// Begins a message.
pub const SOH: u8 = 1;
/// Begins its text.
pub const STX: u8 = 2;
/// Ends its text.
pub const ETX: u8 = 3;
/// Ends a message.
pub const EOT: u8 = 4;

/// The place of the first such byte.
pub fn place_of(bytes: &[u8], stop: u8) -> Option<usize>
    ensures place { result ≡ position (λ b. b == stop) bytes.now }
    ensures bound { IfSome result (λ i. i < length bytes.now) }
{
    memchr(stop, bytes)
}

/// Whether the byte is a CR or an LF.
pub fn ends_line(byte: u8) -> bool
    ensures { result ≡ ends_line byte }
{
    byte == b'\r' || byte == b'\n'
}

/// Whether the byte is a SOH or an EOT.
pub fn ends_message(byte: u8) -> bool
    ensures { result ≡ ends_message byte }
{
    byte == SOH || byte == EOT
}

/// What stands before and behind the first such byte: all and nothing where there is none.
pub fn split_around(bytes: &[u8], stop: u8) -> (&[u8], &[u8])
    ensures front { result.0.now ≡ before stop bytes.now }
    ensures back { result.1.now ≡ behind_byte stop bytes.now }
{
    match place_of(bytes, stop) {
        Some(i) => (&bytes[..i], &bytes[i + 1..]),
        None => (bytes, &[]),
    }
}

/// Whether such a byte is among them.
pub fn has(bytes: &[u8], wanted: u8) -> bool
    ensures { result ≡ has wanted bytes.now }
{
    memchr(wanted, bytes).is_some()
}
