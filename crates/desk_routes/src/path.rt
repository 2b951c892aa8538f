//! The parts of a path.
ghost use Rattle.std.specs.Prelude.{◌≡◌, ◌≤◌, length, true};
ghost use Rattle.std.specs.List.{list_all};
ghost use Rattle.std.specs.Char.{is_ascii_digit};
ghost use Rattle.std.specs.Str.Parse.{digits_value};
ghost use Rattle.desk_routes.specs.Paths as said;

use news_types::Name;

/// What stands behind the first slash.
fn behind_slash(path: &[u8]) -> &[u8]
    ensures { result.now ≡ said.behind_slash path.now }
{
    for (place, byte) in path.iter().enumerate() {
        if *byte == b'/' {
            return &path[place + 1..];
        }
    }
    &path[..0]
}

/// What stands before the first slash.
fn before_slash(path: &[u8]) -> &[u8]
    ensures { result.now ≡ said.before_slash path.now }
{
    for (place, byte) in path.iter().enumerate() {
        if *byte == b'/' {
            return &path[..place];
        }
    }
    path
}

/// The part behind this many slashes, up to the next.
fn part(path: &[u8], slashes: usize) -> &[u8]
    ensures { result.now ≡ said.part slashes path.now }
{
    let mut rest = path;
    for passed in 0..slashes {
        rest = behind_slash(rest);
    }
    before_slash(rest)
}

/// Whether all of them are digits.
fn are_digits(text: &[u8]) -> bool
    ensures { result ≡ list_all is_ascii_digit text.now }
{
    text.iter().all(|byte| byte.is_ascii_digit())
}

/// Whether the first of several bytes is a 0.
fn leads_with_zero(text: &[u8]) -> bool
    ensures { result ≡ said.leads_with_zero text.now }
{
    text.len() > 1 && text[0] == b'0'
}

/// Whether they are a decimal of at most 10 digits.
fn is_decimal(text: &[u8]) -> bool
    ensures { result ≡ said.is_decimal text.now }
{
    text.len() > 0 && text.len() <= 10 && are_digits(text) && !leads_with_zero(text)
}

/// The number that these digits are.
fn decimal(text: &[u8]) -> u64
    requires short { length text.now ≤ 10 }
    requires digits { list_all is_ascii_digit text.now ≡ true }
    ensures { result ≡ digits_value 10 text.now }
{
    let mut number: u64 = 0;
    for byte in text {
        number = number * 10 + (*byte - b'0') as u64;
    }
    number
}

/// The number that a part of a path is.
fn number_in(text: &[u8]) -> Option<u32>
    ensures { result ≡ said.number_in text.now }
{
    if !is_decimal(text) {
        return None;
    }
    let number = decimal(text);
    if number < 4_294_967_296 {
        Some(number as u32)
    } else {
        None
    }
}

/// The name that a part of a path is.
fn name_in(text: &[u8]) -> Option<Name>
    ensures { result ≡ said.name_in text.now }
{
    match std::str::from_utf8(text) {
        Ok(text) => Name::read(text),
        Err(_) => None,
    }
}

/// The number behind this many slashes of a path.
pub(crate) fn number_at(path: &str, slashes: usize) -> Option<u32>
    ensures { result ≡ said.number_in (said.part slashes path.now) }
{
    number_in(part(path.as_bytes(), slashes))
}

/// The name behind this many slashes of a path.
pub(crate) fn name_at(path: &str, slashes: usize) -> Option<Name>
    ensures { result ≡ said.name_in (said.part slashes path.now) }
{
    name_in(part(path.as_bytes(), slashes))
}
