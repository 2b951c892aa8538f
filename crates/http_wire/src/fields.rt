//! What the header lines of a request say.
ghost use Rattle.std.specs.Prelude.{◌≡◌, ◌≤◌, All, map, length, option_map, codes, true};
ghost use Rattle.std.specs.List.{list_all};
ghost use Rattle.std.specs.Str.{bytes_eq, str_eq_ignore_ascii_case};
ghost use Rattle.std.specs.Str.Parse.{digits_value};
ghost use Rattle.std.specs.Char.{is_ascii_digit};
ghost use Rattle.httparse.specs.Spans.{IsHeaderWithin, header_bytes};
ghost use Rattle.http_wire.specs.Fields.{values, is_length, content_length, name_of, user_of, says_close, first_of};

use httparse::spans::HeaderSpan;
use news_types::Name;

/// Whether a line has that name, compared without case.
fn is_named(bytes: &[u8], line: HeaderSpan, name: &[u8]) -> bool
    requires { IsHeaderWithin (length bytes.now) line }
    ensures { result ≡ str_eq_ignore_ascii_case (header_bytes bytes.now line).0 name.now }
{
    line.name.of(bytes).eq_ignore_ascii_case(name)
}

/// How many lines have that name.
pub(crate) fn count_named(bytes: &[u8], lines: &[HeaderSpan], name: &[u8]) -> usize
    requires { All (IsHeaderWithin (length bytes.now)) lines.now }
    ensures { result ≡ length (values name.now (map (header_bytes bytes.now) lines.now)) }
{
    let mut count = 0;
    for line in lines {
        if is_named(bytes, *line, name) {
            count += 1;
        }
    }
    count
}

/// The value of the first line of that name.
fn first_value<'b>(bytes: &'b [u8], lines: &[HeaderSpan], name: &[u8]) -> Option<&'b [u8]>
    requires { All (IsHeaderWithin (length bytes.now)) lines.now }
    ensures { option_map (λ v. v.now) result ≡ first_of (values name.now (map (header_bytes bytes.now) lines.now)) }
{
    for line in lines {
        if is_named(bytes, *line, name) {
            return Some(line.value.of(bytes));
        }
    }
    None
}

/// Whether each line of that name has this value, byte by byte.
fn all_same(bytes: &[u8], lines: &[HeaderSpan], name: &[u8], value: &[u8]) -> bool
    requires { All (IsHeaderWithin (length bytes.now)) lines.now }
    ensures { result ≡ list_all (bytes_eq value.now) (values name.now (map (header_bytes bytes.now) lines.now)) }
{
    for line in lines {
        if is_named(bytes, *line, name) && value != line.value.of(bytes) {
            return false;
        }
    }
    true
}

/// Whether the line's whole value is `close`, compared without case.
fn is_close(bytes: &[u8], line: HeaderSpan) -> bool
    requires { IsHeaderWithin (length bytes.now) line }
    ensures { result ≡ str_eq_ignore_ascii_case (header_bytes bytes.now line).1 (codes "close") }
{
    line.value.of(bytes).eq_ignore_ascii_case(b"close")
}

/// Whether a `Connection` line says `close`.
pub(crate) fn closes(bytes: &[u8], lines: &[HeaderSpan]) -> bool
    requires { All (IsHeaderWithin (length bytes.now)) lines.now }
    ensures { result ≡ says_close (values (codes "connection") (map (header_bytes bytes.now) lines.now)) }
{
    for line in lines {
        if is_named(bytes, *line, b"connection") && is_close(bytes, *line) {
            return true;
        }
    }
    false
}

/// Whether all of them are digits.
fn are_digits(value: &[u8]) -> bool
    ensures { result ≡ list_all is_ascii_digit value.now }
{
    value.iter().all(|byte| byte.is_ascii_digit())
}

/// Whether they are 1 to 10 digits.
fn has_form(value: &[u8]) -> bool
    ensures { result ≡ is_length value.now }
{
    value.len() >= 1 && value.len() <= 10 && are_digits(value)
}

/// The number that these digits are.
fn decimal(value: &[u8]) -> u64
    requires short { length value.now ≤ 10 }
    requires digits { list_all is_ascii_digit value.now ≡ true }
    ensures { result ≡ digits_value 10 value.now }
{
    let mut number: u64 = 0;
    for byte in value {
        number = number * 10 + (*byte - b'0') as u64;
    }
    number
}

/// The length of the body, 0 where no line gives one, and nothing where a line is not of the form or differs from the first.
pub(crate) fn body_length(bytes: &[u8], lines: &[HeaderSpan]) -> Option<u64>
    requires { All (IsHeaderWithin (length bytes.now)) lines.now }
    ensures { result ≡ content_length (values (codes "content-length") (map (header_bytes bytes.now) lines.now)) }
{
    match first_value(bytes, lines, b"content-length") {
        None => Some(0),
        Some(value) => {
            if has_form(value) && all_same(bytes, lines, b"content-length", value) {
                Some(decimal(value))
            } else {
                None
            }
        }
    }
}

/// The name in a value, if it is one.
fn name_in(value: &[u8]) -> Option<Name>
    ensures { result ≡ name_of value.now }
{
    match std::str::from_utf8(value) {
        Ok(text) => Name::read(text),
        Err(_) => None,
    }
}

/// Who asks: the name in the one `X-User` line.
pub(crate) fn user(bytes: &[u8], lines: &[HeaderSpan]) -> Option<Name>
    requires { All (IsHeaderWithin (length bytes.now)) lines.now }
    ensures { result ≡ user_of (values (codes "x-user") (map (header_bytes bytes.now) lines.now)) }
{
    if count_named(bytes, lines, b"x-user") != 1 {
        return None;
    }
    match first_value(bytes, lines, b"x-user") {
        None => None,
        Some(value) => name_in(value),
    }
}
