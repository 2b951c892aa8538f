//! The bytes that are still to be read.

ghost use Rattle.std.specs.Prelude.{◌≡◌, ℕ, suc, List, length, ◌<◌, ◌≤◌, true, IsTrue, IfOk, IfErr, Ok};
ghost use Rattle.std.specs.Int.{w16, w32, w64};
ghost use Rattle.byte_formats.specs.Format.{byte_at, free_at, whole_at, upto_at};
ghost use Rattle.byte_formats.specs.Fields.{text_at, name_at, flag_at};
ghost use Rattle.byte_formats.specs.Except.{from_one_at, some_text_at};
ghost use Rattle.byte_formats.specs.Until.{word_at, numeral_at, literal_at};
ghost use Rattle.byte_formats.specs.Varint.{varint_at};
ghost use Rattle.byte_formats.specs.Gives.{Fails, Gives, IsFault};
ghost use Rattle.news_types.specs.Names.{is_name};
ghost use Rattle.byte_formats.specs.declared.stop.Stopped.TheVariants.{Left};

use crate::faults::{digits_fault, name_fault, utf8_fault};
use crate::front::{name_front, text_front};
use crate::line::{literal_fault, numeral_end, word_end};
use crate::stop::Stopped;
use news_types::{Name, Text};
use std::alloc::Global;
use std::marker::Model;
use std::str;

/// The bytes that are still to be read; a contract sees them as their list.
///
/// Each reader takes its field from the front. Where it stops at a fault it tells how many bytes
/// are left from the faulty byte on, and what is still to be read is then of no use.
#[derive(Debug, Drop)]
pub struct Input<'a> {
    rest: &'a [u8],
}

impl<'a> Model for Input<'a> {
    ghost Value = { List ℕ };

    ghost view = { λ i. i.rest.now };
}

impl<'a> Input<'a> {
    /// Reads these bytes.
    pub fn new(bytes: &'a [u8]) -> Input<'a>
        ensures { result ≡ bytes.now }
    {
        Input { rest: bytes }
    }

    /// How many bytes are left.
    pub fn left(&self) -> usize
        ensures { result ≡ length self.now }
    {
        self.rest.len()
    }

    /// Stopped at the last byte that was read.
    pub fn at_last(&self) -> Stopped
        ensures { result ≡ Left (suc (length self.now)) }
    {
        Stopped::Left(self.rest.len() + 1)
    }

    /// One byte in a range.
    pub fn byte(&mut self, least: u8, most: u8) -> Result<u8, Stopped>
        ensures { Gives result self.new (byte_at least most self.old) }
    {
        match self.rest {
            [] => Err(Stopped::Left(0)),
            [byte, rest @ ..] => {
                if *byte < least || most < *byte {
                    return Err(Stopped::Left(self.rest.len()));
                }
                self.rest = rest;
                Ok(*byte)
            }
        }
    }

    /// So many bytes, whichever they are. It takes no memory.
    pub fn bytes(&mut self, len: usize) -> Result<&'a [u8], Stopped>
        ensures bytes { IfOk result (λ front. free_at len self.old ≡ Ok (front.now, self.new)) }
        ensures fault { IfErr result (λ stopped. Fails stopped (free_at len self.old)) }
        ensures calm { IfErr result IsFault }
    {
        if self.rest.len() < len {
            return Err(Stopped::Left(0));
        }
        let (front, rest) = self.rest.split_at(len);
        self.rest = rest;
        Ok(front)
    }

    /// A number of four bytes.
    #[tactic(auto, unfolding(crate::specs::Format::whole_at))]
    pub fn u32(&mut self) -> Result<u32, Stopped>
        ensures { Gives result self.new (whole_at w32 self.old) }
    {
        if self.rest.len() < 4 {
            return Err(Stopped::Left(0));
        }
        let (front, rest) = self.rest.split_at(4);
        self.rest = rest;
        Ok(u32::from_be_bytes([front[0], front[1], front[2], front[3]]))
    }

    /// A number of eight bytes.
    #[tactic(auto, unfolding(crate::specs::Format::whole_at))]
    pub fn u64(&mut self) -> Result<u64, Stopped>
        ensures { Gives result self.new (whole_at w64 self.old) }
    {
        if self.rest.len() < 8 {
            return Err(Stopped::Left(0));
        }
        let (front, rest) = self.rest.split_at(8);
        self.rest = rest;
        Ok(u64::from_be_bytes([
            front[0], front[1], front[2], front[3], front[4], front[5], front[6], front[7],
        ]))
    }

    /// A number of two bytes, up to `most`. The fault is the first byte that takes it past that.
    #[tactic(auto, unfolding(crate::specs::Format::upto_at))]
    pub fn u16_upto(&mut self, most: u16) -> Result<u16, Stopped>
        ensures { Gives result self.new (upto_at w16 most self.old) }
    {
        if let Some(left) = digits_fault(&most.to_be_bytes(), self.rest) {
            return Err(Stopped::Left(left));
        }
        let (front, rest) = self.rest.split_at(2);
        self.rest = rest;
        Ok(u16::from_be_bytes([front[0], front[1]]))
    }

    /// A number of four bytes, up to `most`. The fault is the first byte that takes it past that.
    #[tactic(auto, unfolding(crate::specs::Format::upto_at))]
    pub fn u32_upto(&mut self, most: u32) -> Result<u32, Stopped>
        ensures { Gives result self.new (upto_at w32 most self.old) }
    {
        if let Some(left) = digits_fault(&most.to_be_bytes(), self.rest) {
            return Err(Stopped::Left(left));
        }
        let (front, rest) = self.rest.split_at(4);
        self.rest = rest;
        Ok(u32::from_be_bytes([front[0], front[1], front[2], front[3]]))
    }

    /// A number of four bytes, from 1 up to `most`. Where it is 0 its last byte is the fault.
    #[tactic(auto, unfolding(crate::specs::Except::from_one_at))]
    pub fn u32_from_one(&mut self, most: u32) -> Result<u32, Stopped>
        ensures { Gives result self.new (from_one_at w32 most self.old) }
    {
        let number = self.u32_upto(most)?;
        if number == 0 {
            return Err(Stopped::Left(self.rest.len() + 1));
        }
        Ok(number)
    }

    /// A number of eight bytes, up to `most`. The fault is the first byte that takes it past that.
    #[tactic(auto, unfolding(crate::specs::Format::upto_at))]
    pub fn u64_upto(&mut self, most: u64) -> Result<u64, Stopped>
        ensures { Gives result self.new (upto_at w64 most self.old) }
    {
        if let Some(left) = digits_fault(&most.to_be_bytes(), self.rest) {
            return Err(Stopped::Left(left));
        }
        let (front, rest) = self.rest.split_at(8);
        self.rest = rest;
        Ok(u64::from_be_bytes([
            front[0], front[1], front[2], front[3], front[4], front[5], front[6], front[7],
        ]))
    }

    /// A byte 0 or 1.
    #[tactic(auto, unfolding(crate::specs::Fields::flag_at))]
    pub fn flag(&mut self) -> Result<bool, Stopped>
        ensures { Gives result self.new (flag_at self.old) }
    {
        Ok(self.byte(0, 1)? == 1)
    }

    /// A name behind a byte of length.
    #[tactic(auto, unfolding(crate::specs::Fields::name_at))]
    pub fn name(&mut self) -> Result<Name, Stopped>
        ensures { Gives result self.new (name_at self.old) }
    {
        let len = self.byte(1, 32)? as usize;
        match name_front(len, self.rest) {
            Some(name) => {
                self.rest = &self.rest[len..];
                Ok(name)
            }
            None => match name_fault(len, self.rest) {
                Some(left) => Err(Stopped::Left(left)),
                None => unreachable!(),
            },
        }
    }

    /// The characters of a text of at most so many bytes behind four bytes of length, as they stand there.
    #[tactic(auto, unfolding(crate::specs::Fields::text_at))]
    pub fn str(&mut self, limit: u32) -> Result<&'a str, Stopped>
        ensures text { IfOk result (λ text. text_at limit self.old ≡ Ok (text.now, self.new)) }
        ensures fault { IfErr result (λ stopped. Fails stopped (text_at limit self.old)) }
    {
        let len = self.u32_upto(limit)? as usize;
        match text_front(len, self.rest) {
            Some(text) => {
                self.rest = &self.rest[len..];
                Ok(text)
            }
            None => match utf8_fault(len, self.rest) {
                Some(left) => Err(Stopped::Left(left)),
                None => unreachable!(),
            },
        }
    }

    /// A text of at most so many bytes behind four bytes of length.
    pub fn text(&mut self, alloc: Global, limit: u32) -> Result<Text, Stopped>
        ensures { Gives result self.new (text_at limit self.old) }
    {
        let text = self.str(limit)?;
        Ok(Text::copy_of(alloc, text)?)
    }

    /// A text that is not empty, of at most so many bytes behind four bytes of length. Where it is empty the last
    /// byte of the length is the fault.
    #[tactic(auto, unfolding(crate::specs::Except::some_text_at))]
    pub fn some_text(&mut self, alloc: Global, limit: u32) -> Result<Text, Stopped>
        ensures { Gives result self.new (some_text_at limit self.old) }
    {
        let text = self.text(alloc, limit)?;
        if text.as_str().is_empty() {
            return Err(Stopped::Left(self.rest.len() + 1));
        }
        Ok(text)
    }

    /// A number up to `most` in 7-bit groups, the low group first.
    pub fn varint(&mut self, most: u64) -> Result<u64, Stopped>
        ensures gives { Gives result self.new (varint_at true most self.old) }
        ensures fits { IfOk result (λ n. n ≤ most) }
    {
        self.groups(true, most)
    }

    /// Such a number, or what is left of one behind its first groups.
    #[tactic(auto, unfolding(crate::specs::Varint::varint_at))]
    fn groups(&mut self, first: bool, most: u64) -> Result<u64, Stopped>
        ensures gives { Gives result self.new (varint_at first most self.old) }
        ensures fits { IfOk result (λ n. n ≤ most) }
    {
        match self.rest {
            [] => Err(Stopped::Left(0)),
            [byte, rest @ ..] => {
                let group = u64::from(*byte);
                if group < 128 {
                    if most < group || (group == 0 && !first) {
                        return Err(Stopped::Left(self.rest.len()));
                    }
                    self.rest = rest;
                    return Ok(group);
                }
                if most < group {
                    return Err(Stopped::Left(self.rest.len()));
                }
                self.rest = rest;
                let high = self.groups(false, (most - (group - 128)) / 128)?;
                Ok(group - 128 + 128 * high)
            }
        }
    }

    /// These very bytes. It takes no memory.
    #[tactic(auto, unfolding(crate::specs::Until::literal_at))]
    pub fn literal(&mut self, word: &[u8]) -> Result<(), Stopped>
        ensures gives { Gives result self.new (literal_at word.now self.old) }
        ensures calm { IfErr result IsFault }
    {
        if let Some(left) = literal_fault(word, self.rest) {
            return Err(Stopped::Left(left));
        }
        let (_, rest) = self.rest.split_at(word.len());
        self.rest = rest;
        Ok(())
    }

    /// A name and the space behind it. It takes no memory.
    pub fn word(&mut self) -> Result<Name, Stopped>
        ensures gives { Gives result self.new (word_at self.old) }
        ensures calm { IfErr result IsFault }
    {
        match word_end(self.rest) {
            Ok(len) => {
                let name = name_of(&self.rest[..len]);
                self.rest = &self.rest[len + 1..];
                Ok(name)
            }
            Err(left) => Err(Stopped::Left(left)),
        }
    }

    /// A decimal number from `least`, which is 0 or 1, up to `most`, without leading zeros, and the
    /// byte `stop` behind it, which is below the digits. It takes no memory.
    pub fn decimal(&mut self, stop: u8, least: u32, most: u32) -> Result<u32, Stopped>
        requires stop { stop < 48 }
        requires least { least ≤ 1 }
        requires some { least ≤ most }
        ensures gives { Gives result self.new (numeral_at stop least most self.old) }
        ensures calm { IfErr result IsFault }
    {
        match numeral_end(stop, least, most, self.rest) {
            Ok((value, digits)) => {
                self.rest = &self.rest[digits + 1..];
                Ok(value)
            }
            Err(left) => Err(Stopped::Left(left)),
        }
    }
}

/// The name that these bytes are.
fn name_of(bytes: &[u8]) -> Name
    requires { IsTrue (is_name bytes.now) }
    ensures { result ≡ bytes.now }
{
    match str::from_utf8(bytes) {
        Ok(text) => match Name::read(text) {
            Some(name) => name,
            None => unreachable!(),
        },
        Err(_) => unreachable!(),
    }
}
