//! Reading frames.
//!
//! A frame is the word `FRAME`, the subscriber, the frame's number in its feed and the payload's
//! length, each behind a space, then a line feed and the payload. The numbers are decimal without
//! leading zeros; the frame's number is 1 to 4294967295, the length 0 to 4194240.

ghost use Rattle.std.specs.Prelude.{◌≡◌, ℕ, Ok, Err, IfOk, IfErr};
ghost use Rattle.byte_formats.specs.Gives.{Fails, Gives, IsFault, all_of};
ghost use Rattle.byte_formats.specs.declared.stop.Stopped.TheVariants.{Left};
ghost use Rattle.feed_receiver.specs.Formats.{heading_at, read_frame_at, frame};
ghost use Rattle.feed_receiver.specs.Reads.{IsFirst};

use byte_formats::{Input, Stopped};
use news_types::Name;

/// The most bytes of a frame's payload.
const LONGEST_PAYLOAD: u32 = 4194240;

/// The first line of a frame.
#[derive(Clone, Copy)]
pub struct Heading {
    /// The subscriber that it is for.
    pub to: Name,
    /// Its place in that feed, from 1.
    pub k: u32,
    /// How many bytes the payload has.
    pub length: u32,
}

/// A frame, as it lies in the bytes that were read.
#[derive(Clone, Copy)]
pub struct Frame<'a> {
    /// The subscriber that it is for.
    pub to: Name,
    /// Its place in that feed, from 1.
    pub k: u32,
    /// The publication as it is written for the subscriber.
    pub payload: &'a [u8],
}

/// What the first bytes of an input are.
#[derive(Clone, Copy, Debug, PartialEq, Eq)]
pub enum FirstFrame {
    /// So many of them are a frame.
    Whole { size: usize },
    /// No frame begins with the bytes up to and with this place.
    Bad { at: usize },
    /// They begin a frame, and end too soon for it.
    Cut,
}

/// The first frame of an input, of which these are the first bytes. It takes no memory.
pub fn first_frame(bytes: &[u8]) -> FirstFrame
    ensures { IsFirst bytes.now result }
{
    let mut input = Input::new(bytes);
    match front_frame(&mut input) {
        Ok(_) => FirstFrame::Whole {
            size: bytes.len() - input.left(),
        },
        Err(0) => FirstFrame::Cut,
        Err(left) => FirstFrame::Bad {
            at: bytes.len() - left,
        },
    }
}

/// The frame that all of the bytes are, or else how many bytes are left from the fault on.
#[tactic(auto, unfolding(byte_formats::specs::Gives::all_of))]
pub fn whole_frame(bytes: &[u8]) -> Result<Frame<'_>, usize>
    ensures frame { IfOk result (λ f. all_of frame bytes.now ≡ Ok (record { to = f.to; k = f.k; payload = f.payload.now })) }
    ensures fault { IfErr result (λ left. all_of frame bytes.now ≡ Err left) }
{
    let mut input = Input::new(bytes);
    match front_frame(&mut input) {
        Ok(frame) => match input.left() {
            0 => Ok(frame),
            left => Err(left),
        },
        Err(left) => Err(left),
    }
}

/// The frame at the front of what is still to be read, or else how many bytes are left from the fault on.
fn front_frame<'a>(input: &mut Input<'a>) -> Result<Frame<'a>, usize>
    ensures frame { IfOk result (λ f. read_frame_at input.old ≡ Ok (record { to = f.to; k = f.k; payload = f.payload.now }, input.new)) }
    ensures fault { IfErr result (λ left. read_frame_at input.old ≡ Err left) }
{
    match next_frame(input) {
        Ok(frame) => Ok(frame),
        Err(stopped) => Err(left_of(stopped)),
    }
}

/// How many bytes are left from the fault on: what takes no memory stops at nothing else.
fn left_of(stopped: Stopped) -> usize
    requires { IsFault stopped }
    ensures { stopped ≡ Left result }
{
    match stopped {
        Stopped::Left(left) => left,
        Stopped::Memory => unreachable!(),
    }
}

/// The same, and where it stops.
#[tactic(auto, unfolding(crate::specs::Formats::read_frame_at))]
fn next_frame<'a>(input: &mut Input<'a>) -> Result<Frame<'a>, Stopped>
    ensures frame { IfOk result (λ f. read_frame_at input.old ≡ Ok (record { to = f.to; k = f.k; payload = f.payload.now }, input.new)) }
    ensures fault { IfErr result (λ stopped. Fails stopped (read_frame_at input.old)) }
    ensures calm { IfErr result IsFault }
{
    let heading = next_heading(input)?;
    let payload = input.bytes(heading.length as usize)?;
    Ok(Frame {
        to: heading.to,
        k: heading.k,
        payload,
    })
}

#[tactic(auto, unfolding(crate::specs::Formats::heading_at))]
fn next_heading(input: &mut Input) -> Result<Heading, Stopped>
    ensures gives { Gives result input.new (heading_at input.old) }
    ensures calm { IfErr result IsFault }
{
    input.literal(b"FRAME ")?;
    Ok(Heading {
        to: input.word()?,
        k: input.decimal(b' ', 1, u32::MAX)?,
        length: input.decimal(b'\n', 0, LONGEST_PAYLOAD)?,
    })
}
