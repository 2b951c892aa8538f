//! Reading a header.
ghost use Rattle.std.specs.Prelude.{◌≡◌, ◌≢◌, ◌<◌, ◌≤◌, ◌-◌, ◌++◌, ℕ, Some, None, IsTrue, IfOk, length, replicate, slice_index, take};
ghost use Rattle.news_types.specs.Names.{is_name};
ghost use Rattle.news_journal.specs.Log.{IsHead};
ghost use Rattle.news_journal.specs.Damage.{may_stand, header_damage};
ghost use Rattle.news_journal.specs.Opened.{Still, HeaderAs, IsHeaderOf, IsFilled};
ghost use Rattle.news_io.specs.Faults.{Counts};

use crate::ahead::fill;
use crate::{Header, OpenFault};
use news_io::{Disk, Failed};
use news_types::{Name, is_name_letter};
use uuid::Uuid;

/// The bytes with which every header begins.
const START: [u8; 8] = *b"NEWSDESK";

/// The kind of a room's log.
const ROOM: u8 = 1;

/// Whether a byte may stand at a place of a header of this kind, behind that byte.
fn is_in_form(kind: u8, place: usize, before: u8, byte: u8) -> bool
    ensures { result ≡ may_stand kind place before byte }
{
    if place < 8 {
        return byte == START[place];
    }
    if place < 10 {
        return byte == 1 || byte == 2;
    }
    if place < 32 {
        return kind == ROOM || byte == 0;
    }
    if kind == ROOM {
        return byte == 0;
    }
    if place == 32 {
        return is_name_letter(byte);
    }
    byte == 0 || (before > 0 && is_name_letter(byte))
}

fn byte_at(bytes: &[u8], place: usize) -> u8
    ensures { result ≡ slice_index bytes.now place }
{
    bytes.get(place).copied().unwrap_or(0)
}

/// The first place of a header whose byte is missing or not of the form, with that byte.
fn damage_of_header(bytes: &[u8]) -> Option<(u64, Option<u8>)>
    ensures { result ≡ header_damage bytes.now }
{
    let kind = byte_at(bytes, 9);
    let mut before = 0;
    for place in 0..64 {
        if place >= bytes.len() {
            return Some((place as u64, None));
        }
        let byte = bytes[place];
        if !is_in_form(kind, place, before, byte) {
            return Some((place as u64, Some(byte)));
        }
        before = byte;
    }
    None
}

/// How many bytes stand before the first zero.
fn count_before_zero(bytes: &[u8]) -> usize
    ensures within { result ≤ length bytes.now }
    ensures before { (k : ℕ) → k < result → slice_index bytes.now k ≢ 0 }
    ensures zero { result < length bytes.now → slice_index bytes.now result ≡ 0 }
{
    let mut count = 0;
    while count < bytes.len() && bytes[count] != 0 {
        count += 1;
    }
    count
}

fn name_of(text: &[u8]) -> Option<Name>
    ensures { IsTrue (is_name text.now) → result ≡ Some text.now }
{
    let Ok(text) = std::str::from_utf8(text) else {
        return None;
    };
    Name::read(text)
}

/// The name that is filled with zeros to these bytes.
fn name_in(bytes: &[u8]) -> Name
    requires { IsFilled bytes.now }
    ensures { bytes.now ≡ result ++ replicate (32 - length result) 0 }
{
    match name_of(&bytes[..count_before_zero(bytes)]) {
        Some(name) => name,
        None => unreachable!(),
    }
}

/// These bytes, of which there are 64.
fn whole(bytes: &[u8]) -> [u8; 64]
    requires { length bytes.now ≡ 64 }
    ensures { result ≡ bytes.now }
{
    let mut head = [0; 64];
    head.copy_from_slice(bytes);
    head
}

/// The header in 64 bytes that are of the form.
fn header_in(bytes: &[u8]) -> Header
    requires size { length bytes.now ≡ 64 }
    requires form { header_damage bytes.now ≡ None }
    ensures { IsHead result bytes.now }
{
    if bytes[9] == ROOM {
        let mut store = [0; 16];
        store.copy_from_slice(&bytes[16..32]);
        return Header::Room {
            store: Uuid::from_bytes(store),
        };
    }
    Header::Receiver {
        name: name_in(&bytes[32..]),
    }
}

/// Reads a header, which has 64 bytes; these are at most as many. The answer has those bytes too.
pub fn read_header(bytes: &[u8]) -> Result<([u8; 64], Header), OpenFault>
    requires { length bytes.now ≤ 64 }
    ensures { HeaderAs bytes.now result }
{
    if let Some((at, found)) = damage_of_header(bytes) {
        return Err(OpenFault::Damaged { at, found });
    }
    Ok((whole(bytes), header_in(bytes)))
}

impl Header {
    /// The header on a disk, whatever stands behind it; none where the first 64 bytes are not of the form.
    pub fn read_from<D: Disk>(disk: &mut D) -> Result<Option<Header>, Failed>
        ensures header { D.disk.tells disk.old → IfOk result (IsHeaderOf (take 64 (D.disk.seen disk.old))) }
        ensures still { Still D.disk disk.old disk.new }
        ensures count { Counts (D.disk.faults disk.old) (D.disk.faults disk.new) result }
    {
        let mut bytes = [0; 64];
        let count = fill(disk, 0, &mut bytes, 1)?;
        match read_header(&bytes[..count]) {
            Ok((_, header)) => Ok(Some(header)),
            Err(_) => Ok(None),
        }
    }
}
