//! Whether some bytes end inside a request's target.
ghost use Rattle.std.specs.Prelude.{◌≡◌, ◌↔◌, IsTrue};
ghost use Rattle.std.specs.List.{list_all};
ghost use Rattle.httparse.specs.Grammar.{EndsInTarget, is_uri_byte};
ghost use Rattle.http_wire.specs.Target.{in_target, in_method};

/// Whether the bytes end inside a request's target. What a target's bytes are as a text is only asked at its end.
pub(crate) fn ends_in_target(bytes: &[u8]) -> bool
    ensures { IsTrue result ↔ EndsInTarget bytes.now }
{
    scans_target(bytes)
}

/// As `ends_in_target`, from the empty lines before a method on.
fn scans_target(bytes: &[u8]) -> bool
    ensures { result ≡ in_target bytes.now }
{
    let mut at = 0;
    while at + 1 < bytes.len() {
        if bytes[at] == b'\n' {
            at += 1;
        } else if bytes[at] == b'\r' && bytes[at + 1] == b'\n' {
            at += 2;
        } else {
            return httparse::is_method_token(bytes[at]) && scans_method(&bytes[at + 1..]);
        }
    }
    false
}

/// From the second byte of a method on.
fn scans_method(bytes: &[u8]) -> bool
    ensures { result ≡ in_method bytes.now }
{
    for (i, byte) in bytes.iter().enumerate() {
        if *byte == b' ' {
            return are_target(&bytes[i + 1..]);
        }
        if !httparse::is_method_token(*byte) {
            return false;
        }
    }
    false
}

/// Whether all of them may stand in a target.
fn are_target(bytes: &[u8]) -> bool
    ensures { result ≡ list_all is_uri_byte bytes.now }
{
    for byte in bytes {
        if !httparse::is_uri_token(*byte) {
            return false;
        }
    }
    true
}
