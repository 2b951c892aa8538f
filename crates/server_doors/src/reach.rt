//! How far the first request of a connection's bytes reaches. It is asked only whether the bytes are there that the server's
//! reader needs: what a request is, and what it is refused for, that reader says.
ghost use Rattle.std.specs.Prelude.{◌≤◌, length, IfSome};

/// As many bytes as a head has at most.
const MOST_HEAD: usize = 16384;

/// As many bytes as a body has at most.
const MOST_BODY: usize = 4194304;

/// How far the first request reaches.
#[derive(Clone, Copy, Debug, PartialEq, Eq)]
pub(crate) enum Reach {
    /// More bytes are to come.
    Unfinished,
    /// It has so many bytes, and all are there.
    Whole(usize),
    /// The reader refuses it by what is there, and reads nothing behind it.
    Refused,
}

/// Where in a head a byte comes.
#[derive(Clone, Copy)]
enum Place {
    /// Before the first line that is not empty.
    Before,
    /// Within a line.
    Within,
    /// At the start of a line.
    Start,
    /// Behind a carriage return that starts a line.
    Return,
}

/// The length of the head at the front: up to and with the first empty line behind one that is not empty.
fn head_length(bytes: &[u8]) -> Option<usize>
    ensures { IfSome result (λ n. n ≤ length bytes.now) }
{
    let mut place = Place::Before;
    for (at, byte) in bytes.iter().enumerate() {
        place = match (place, *byte) {
            (Place::Before, b'\r' | b'\n') => Place::Before,
            (Place::Start | Place::Return, b'\n') => return Some(at + 1),
            (_, b'\n') => Place::Start,
            (Place::Start, b'\r') => Place::Return,
            _ => Place::Within,
        };
    }
    None
}

/// The head at the front, if it is there whole.
pub(crate) fn head_of(bytes: &[u8]) -> Option<&[u8]>
    ensures { IfSome result (λ head. length head.now ≤ length bytes.now) }
{
    let looked = &bytes[..bytes.len().min(MOST_HEAD)];
    let length = head_length(looked)?;
    Some(&looked[..length])
}

/// The value of a line of this name, without its end and the spaces and tabs around it; an empty one where it is no text.
pub(crate) fn value_of<'a>(line: &'a [u8], name: &[u8]) -> Option<&'a str> {
    let mut parts = line.splitn(2, |byte| *byte == b':');
    let (found, value) = (parts.next()?, parts.next()?);
    if !found.eq_ignore_ascii_case(name) {
        return None;
    }
    let value = std::str::from_utf8(value).unwrap_or("");
    let value = value.strip_suffix('\r').unwrap_or(value);
    Some(value.trim_matches([' ', '\t']))
}

/// The number that a length is, where a body may be that long.
fn read_length(value: &str) -> Option<usize> {
    if value.len() > 10 || !value.bytes().all(|byte| byte.is_ascii_digit()) {
        return None;
    }
    match value.parse::<usize>() {
        Ok(length) if length <= MOST_BODY => Some(length),
        _ => None,
    }
}

/// How long the body is that the first such line of a head asks for. Where a later one says otherwise, the reader refuses the head.
fn body_length(head: &[u8]) -> Option<usize> {
    for line in head.split(|byte| *byte == b'\n') {
        if let Some(value) = value_of(line, b"content-length") {
            return read_length(value);
        }
    }
    Some(0)
}

/// How far the first request of these bytes reaches.
pub(crate) fn reach_of(bytes: &[u8]) -> Reach {
    let Some(head) = head_of(bytes) else {
        if bytes.len() < MOST_HEAD {
            return Reach::Unfinished;
        }
        return Reach::Refused;
    };
    match body_length(head) {
        Some(body) if bytes.len() - head.len() >= body => Reach::Whole(head.len() + body),
        Some(_) => Reach::Unfinished,
        None => Reach::Refused,
    }
}
