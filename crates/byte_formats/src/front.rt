//! The first bytes as a text or as a name, where they are one: found in one pass, and no fault is looked for.

ghost use Rattle.std.specs.Prelude.{◌≡◌, ◌≤◌, length, take, drop, IsTrue, IsUtf8, IfSome, None, Ok, true};
ghost use Rattle.news_types.specs.Names.{is_name};
ghost use Rattle.byte_formats.specs.Format.{scan_at};
ghost use Rattle.byte_formats.specs.Fields.{name_step, utf8_step, due};

use news_types::Name;
use std::str;

/// The first so many bytes as a text.
pub fn text_front(len: usize, bytes: &[u8]) -> Option<&str>
    ensures text { IfSome result (λ text. text.now ≡ take len bytes.now) }
    ensures scans { IfSome result (λ text. scan_at utf8_step len (due 0 128 191) bytes.now ≡ Ok (take len bytes.now, drop len bytes.now)) }
    ensures long { IfSome result (λ text. len ≤ length bytes.now) }
    ensures none { result ≡ None → len ≤ length bytes.now → IsUtf8 (take len bytes.now) → ⊥ }
{
    let front = bytes.get(..len)?;
    str::from_utf8(front).ok()
}

/// The first so many bytes as a name.
pub fn name_front(len: usize, bytes: &[u8]) -> Option<Name>
    ensures name { IfSome result (λ name. name ≡ take len bytes.now) }
    ensures scans { IfSome result (λ name. scan_at name_step len true bytes.now ≡ Ok (take len bytes.now, drop len bytes.now)) }
    ensures long { IfSome result (λ name. len ≤ length bytes.now) }
    ensures none { result ≡ None → len ≤ length bytes.now → IsTrue (is_name (take len bytes.now)) → ⊥ }
{
    Name::read(text_front(len, bytes)?)
}
