//! Record lines.
//!
//! A record line is the word `RECORD`, the number of the record in its list and the payload's length, each behind a
//! space, then a line feed and the payload. The numbers are decimal without leading zeros; the record's number is 1 to
//! 281474976710655, the length 1 to 4194304.

ghost use Rattle.std.specs.Prelude.{◌≡◌, ◌≤◌, ◌<◌, ◌^◌, ℕ, length, Ok, Err, IfOk, IfErr};
ghost use Rattle.byte_formats.specs.Gives.{Fails, Gives, IsFault, all_of};
ghost use Rattle.byte_formats.specs.declared.stop.Stopped.TheVariants.{Left};
ghost use Rattle.record_lines.specs.Spelling.{record_bytes};
ghost use Rattle.record_lines.specs.Formats.{heading_at, read_record_at, record_line as record_format};
ghost use Rattle.record_lines.specs.Reads.{IsFirst};

use crate::number;
use byte_formats::{Input, SmallBytes, Stopped};
use news_types::Memory;
use std::alloc::Global;

/// The greatest number of a record.
const LAST_NUMBER: u64 = 281474976710655;

/// The most bytes of a payload.
const LONGEST_PAYLOAD: u32 = 4194304;

/// The first line of a record line.
#[derive(Clone, Copy)]
pub struct Heading {
    /// The record's place in the list, from 1.
    pub number: u64,
    /// How many bytes the payload has.
    pub length: u32,
}

/// A record line, as it lies in the bytes that were read.
#[derive(Clone, Copy)]
pub struct RecordLine<'a> {
    /// The record's place in the list, from 1.
    pub number: u64,
    /// The record's payload.
    pub payload: &'a [u8],
}

/// What the first bytes of an input are.
#[derive(Clone, Copy, Debug, PartialEq, Eq)]
pub enum FirstRecord {
    /// So many of them are a record line.
    Whole { size: usize },
    /// No record line begins with the bytes up to and with this place.
    Bad { at: usize },
    /// They begin a record line, and end too soon for it.
    Cut,
}

/// The first record line of an input, of which these are the first bytes. It takes no memory.
pub fn first_record(bytes: &[u8]) -> FirstRecord
    ensures { IsFirst bytes.now result }
{
    let mut input = Input::new(bytes);
    match front_record(&mut input) {
        Ok(_) => FirstRecord::Whole {
            size: bytes.len() - input.left(),
        },
        Err(0) => FirstRecord::Cut,
        Err(left) => FirstRecord::Bad {
            at: bytes.len() - left,
        },
    }
}

/// The record line that all of the bytes are, or else how many bytes are left from the fault on. It takes no memory.
#[tactic(auto, unfolding(byte_formats::specs::Gives::all_of))]
pub fn whole_record(bytes: &[u8]) -> Result<RecordLine<'_>, usize>
    ensures record { IfOk result (λ r.
        all_of record_format bytes.now ≡ Ok (record { number = r.number; payload = r.payload.now })) }
    ensures fault { IfErr result (λ left. all_of record_format bytes.now ≡ Err left) }
{
    let mut input = Input::new(bytes);
    match front_record(&mut input) {
        Ok(line) => match input.left() {
            0 => Ok(line),
            left => Err(left),
        },
        Err(left) => Err(left),
    }
}

/// The record line of a payload.
pub fn record_line(alloc: Global, number: u64, payload: &[u8]) -> Result<Vec<u8>, Memory>
    requires { length payload.now ≤ 4194304 }
    ensures { IfOk result (λ line. line.items ≡ record_bytes (record { number = number; payload = payload.now })) }
{
    let mut head: SmallBytes<64> = SmallBytes::new();
    head.push_slice(b"RECORD ");
    head.push_decimal(number);
    head.push_slice(b" ");
    head.push_decimal(payload.len() as u64);
    head.push_slice(b"\n");
    let head = head.as_slice();
    let mut line = Vec::with_capacity(alloc, head.len() + payload.len())?;
    line.extend_from_slice(head)?;
    line.extend_from_slice(payload)?;
    Ok(line)
}

/// The record line at the front of what is still to be read, or else how many bytes are left from the fault on.
fn front_record<'a>(input: &mut Input<'a>) -> Result<RecordLine<'a>, usize>
    ensures record { IfOk result (λ r.
        read_record_at input.old ≡ Ok (record { number = r.number; payload = r.payload.now }, input.new)) }
    ensures fault { IfErr result (λ left. read_record_at input.old ≡ Err left) }
{
    match next_record(input) {
        Ok(line) => Ok(line),
        Err(stopped) => Err(left_of(stopped)),
    }
}

/// How many bytes are left from the fault on: what takes no memory stops at nothing else.
fn left_of(stopped: Stopped) -> usize
    requires { IsFault stopped }
    ensures { stopped ≡ Left result }
{
    match stopped {
        Stopped::Left(left) => left,
        Stopped::Memory => unreachable!(),
    }
}

/// The same, and where it stops.
#[tactic(auto, unfolding(crate::specs::Formats::read_record_at))]
fn next_record<'a>(input: &mut Input<'a>) -> Result<RecordLine<'a>, Stopped>
    ensures record { IfOk result (λ r.
        read_record_at input.old ≡ Ok (record { number = r.number; payload = r.payload.now }, input.new)) }
    ensures fault { IfErr result (λ stopped. Fails stopped (read_record_at input.old)) }
    ensures calm { IfErr result IsFault }
{
    let heading = next_heading(input)?;
    let payload = input.bytes(heading.length as usize)?;
    Ok(RecordLine {
        number: heading.number,
        payload,
    })
}

#[tactic(auto, unfolding(crate::specs::Formats::heading_at))]
fn next_heading(input: &mut Input) -> Result<Heading, Stopped>
    ensures gives { Gives result input.new (heading_at input.old) }
    ensures calm { IfErr result IsFault }
{
    input.literal(b"RECORD ")?;
    Ok(Heading {
        number: number::decimal(input, b' ', 1, LAST_NUMBER)?,
        length: input.decimal(b'\n', 1, LONGEST_PAYLOAD)?,
    })
}
