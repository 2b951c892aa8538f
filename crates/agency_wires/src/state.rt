//! The state of reading a wire.

ghost use Rattle.std.specs.Prelude.{◌≡◌, ◌≢◌, ◌+◌, ◌<◌, ◌≤◌, ◌^◌, ℕ, List, [], ◌∷◌, ◌++◌, OnOk, OnErr, IfOk, Some, None, All, length, take, drop};
ghost use Rattle.agency_wires.specs.declared.phase.Phase.{Phase};
ghost use Rattle.agency_wires.specs.Machine.{EndsIn};
ghost use Rattle.agency_wires.specs.State.{IsOpen, ahead_of, closing};
ghost use Rattle.agency_wires.specs.Messages.{messages_from};
ghost use Rattle.agency_wires.specs.declared.reach.End.TheVariants.{Whole};

use crate::bytes::{SOH, place_of};
use crate::found::Found;
use crate::phase::Phase;
use crate::reach::{End, Reach, reach_in};
use news_types::{Bytes, Memory};
use std::alloc::Global;
use std::collections::VecDeque;

/// Where reading stands: the members that are ready, the place of the next byte, and what has come
/// of a message.
#[derive(Drop)]
pub struct State {
    pub ready: VecDeque<Found>,
    pub at: u64,
    pub phase: Option<Phase>,
    pub held: Vec<u8>,
}

/// A message that a piece does not end, and its bytes so far.
#[derive(Drop)]
pub struct Rest<'a> {
    pub phase: Option<Phase>,
    pub bytes: &'a [u8],
}

/// What the bytes of a message are that is over before this place.
fn found_at(alloc: Global, at: u64, message: &[u8], end: End) -> Result<Found, Memory>
    requires { length message.now < at }
    ensures { IfOk result (λ found. found ≡ closing at message.now end) }
{
    match end {
        End::Whole => Ok(Found::Message {
            at: at - message.len() as u64 - 1,
            bytes: Bytes::copy_of(alloc, message)?,
        }),
        End::TooLong => Ok(Found::TooLong { at }),
    }
}

/// Puts what the bytes of a message are that is over before this place behind the members that were made.
fn put_member(
    alloc: Global,
    made: &mut VecDeque<Found>,
    at: u64,
    message: &[u8],
    end: End,
) -> Result<(), Memory>
    requires { length message.now < at }
    ensures members { OnOk result (made.new.items ≡ made.old.items ++ closing at message.now end ∷ []) }
    ensures err { OnErr result (made.new.items ≡ made.old.items) }
{
    made.push_back(found_at(alloc, at, message, end)?)?;
    Ok(())
}

/// Reads bytes that stand outside a message, up to the message that they do not end.
fn read_on<'a>(
    alloc: Global,
    start: u64,
    piece: &'a [u8],
    made: &mut VecDeque<Found>,
) -> Result<Rest<'a>, Memory>
    requires fits { start + length piece.now < 2 ^ 64 }
    ensures state { IfOk result (λ rest. IsOpen (start + length piece.now) rest.phase rest.bytes.now) }
    ensures members { IfOk result (λ rest. (more : List ℕ) →
        made.new.items ++ ahead_of (start + length piece.now) rest.phase rest.bytes.now more
        ≡ made.old.items ++ messages_from start (piece.now ++ more)) }
{
    let mut at = start;
    let mut rest = piece;
    while let Some(gap) = place_of(rest, SOH) {
        let (_, message) = rest.split_at(gap + 1);
        let begin = at + gap as u64 + 1;
        match reach_in(Phase::Head, 0, message) {
            Reach::Open(phase) => {
                return Ok(Rest {
                    phase: Some(phase),
                    bytes: message,
                });
            }
            Reach::Ended { len, end } => {
                let (front, behind) = message.split_at(len);
                at = begin + len as u64;
                put_member(alloc, made, at, front, end)?;
                rest = behind;
            }
        }
    }
    Ok(Rest {
        phase: None,
        bytes: &[],
    })
}

impl State {
    /// The members that were made, and then what the bytes from this place on have, follow what is
    /// ready. Nothing is held of a message before them.
    fn go_on(
        &mut self,
        alloc: Global,
        made: &mut VecDeque<Found>,
        at: u64,
        piece: &[u8],
    ) -> Result<(), Memory>
        requires fits { at + length piece.now < 2 ^ 64 }
        ensures at { OnOk result (self.new.at ≡ at + length piece.now) }
        ensures state { OnOk result (IsOpen self.new.at self.new.phase self.new.held.items) }
        ensures members { OnOk result ((more : List ℕ) →
            self.new.ready.items ++ ahead_of self.new.at self.new.phase self.new.held.items more
            ≡ self.old.ready.items ++ made.old.items ++ messages_from at (piece.now ++ more)) }
        ensures err_ready { OnErr result (self.new.ready.items ≡ self.old.ready.items) }
        ensures err_at { OnErr result (self.new.at ≡ self.old.at) }
        ensures err_phase { OnErr result (self.new.phase ≡ self.old.phase) }
        ensures err_held { OnErr result (self.new.held.items ≡ self.old.held.items) }
    {
        let rest = read_on(alloc, at, piece, made)?;
        let held = Vec::from_slice(alloc, rest.bytes)?;
        self.ready.append(made)?;
        self.at = at + piece.len() as u64;
        self.phase = rest.phase;
        self.held = held;
        Ok(())
    }

    /// Takes a piece where nothing is held of a message.
    fn go_outside(&mut self, alloc: Global, piece: &[u8]) -> Result<(), Memory>
        requires fits { self.old.at + length piece.now < 2 ^ 64 }
        ensures at { OnOk result (self.new.at ≡ self.old.at + length piece.now) }
        ensures state { OnOk result (IsOpen self.new.at self.new.phase self.new.held.items) }
        ensures members { OnOk result ((more : List ℕ) →
            self.new.ready.items ++ ahead_of self.new.at self.new.phase self.new.held.items more
            ≡ self.old.ready.items ++ messages_from self.old.at (piece.now ++ more)) }
        ensures err_ready { OnErr result (self.new.ready.items ≡ self.old.ready.items) }
        ensures err_at { OnErr result (self.new.at ≡ self.old.at) }
        ensures err_phase { OnErr result (self.new.phase ≡ self.old.phase) }
        ensures err_held { OnErr result (self.new.held.items ≡ self.old.held.items) }
    {
        let mut made = VecDeque::new(alloc);
        self.go_on(alloc, &mut made, self.at, piece)?;
        Ok(())
    }

    /// Takes a piece that ends the message of which some has come, behind so many bytes.
    fn close(&mut self, alloc: Global, piece: &[u8], len: usize, end: End) -> Result<(), Memory>
        requires fits { self.old.at + length piece.now < 2 ^ 64 }
        requires within { len ≤ length piece.now }
        requires begun { length self.old.held.items < self.old.at }
        ensures at { OnOk result (self.new.at ≡ self.old.at + length piece.now) }
        ensures state { OnOk result (IsOpen self.new.at self.new.phase self.new.held.items) }
        ensures members { OnOk result ((more : List ℕ) →
            self.new.ready.items ++ ahead_of self.new.at self.new.phase self.new.held.items more
            ≡ self.old.ready.items ++ closing (self.old.at + len) (self.old.held.items ++ take len piece.now) end ∷ messages_from (self.old.at + len) (drop len piece.now ++ more)) }
        ensures err_ready { OnErr result (self.new.ready.items ≡ self.old.ready.items) }
        ensures err_at { OnErr result (self.new.at ≡ self.old.at) }
        ensures err_phase { OnErr result (self.new.phase ≡ self.old.phase) }
        ensures err_held { OnErr result (take (length self.old.held.items) self.new.held.items ≡ self.old.held.items) }
    {
        let (front, rest) = piece.split_at(len);
        let at = self.at + len as u64;
        self.held.extend_from_slice(front)?;
        let mut made = VecDeque::new(alloc);
        put_member(alloc, &mut made, at, self.held.as_slice(), end)?;
        self.go_on(alloc, &mut made, at, rest)?;
        Ok(())
    }

    /// Takes the next piece.
    pub fn take_in(&mut self, alloc: Global, piece: &[u8]) -> Result<(), Memory>
        requires state { IsOpen self.old.at self.old.phase self.old.held.items }
        requires fits { self.old.at + length piece.now < 2 ^ 64 }
        ensures at { OnOk result (self.new.at ≡ self.old.at + length piece.now) }
        ensures state { OnOk result (IsOpen self.new.at self.new.phase self.new.held.items) }
        ensures members { OnOk result ((more : List ℕ) →
            self.new.ready.items ++ ahead_of self.new.at self.new.phase self.new.held.items more
            ≡ self.old.ready.items ++ ahead_of self.old.at self.old.phase self.old.held.items (piece.now ++ more)) }
        ensures err_ready { OnErr result (self.new.ready.items ≡ self.old.ready.items) }
        ensures err_at { OnErr result (self.new.at ≡ self.old.at) }
        ensures err_phase { OnErr result (self.new.phase ≡ self.old.phase) }
        ensures err_held { OnErr result (self.new.held.items ≡ self.old.held.items) }
    {
        let Some(phase) = self.phase else {
            return self.go_outside(alloc, piece);
        };
        match reach_in(phase, self.held.len(), piece) {
            Reach::Open(phase) => {
                self.held.extend_from_slice(piece)?;
                self.phase = Some(phase);
                self.at += piece.len() as u64;
                Ok(())
            }
            Reach::Ended { len, end } => {
                let kept = self.held.len();
                match self.close(alloc, piece, len, end) {
                    Ok(()) => Ok(()),
                    Err(memory) => {
                        self.held.truncate(kept);
                        Err(memory)
                    }
                }
            }
        }
    }

    /// The input ends.
    pub fn end(&mut self, alloc: Global) -> Result<(), Memory>
        requires state { IsOpen self.old.at self.old.phase self.old.held.items }
        ensures at { self.new.at ≡ self.old.at }
        ensures state { IsOpen self.new.at self.new.phase self.new.held.items }
        ensures members { OnOk result (self.new.ready.items ≡ self.old.ready.items ++ ahead_of self.old.at self.old.phase self.old.held.items []) }
        ensures err_ready { OnErr result (self.new.ready.items ≡ self.old.ready.items) }
        ensures err_phase { OnErr result (self.new.phase ≡ self.old.phase) }
        ensures err_held { OnErr result (self.new.held.items ≡ self.old.held.items) }
    {
        let Some(_) = self.phase else {
            return Ok(());
        };
        let message = self.held.as_slice();
        put_member(alloc, &mut self.ready, self.at, message, End::Whole)?;
        self.phase = None;
        self.held.clear();
        Ok(())
    }
}
