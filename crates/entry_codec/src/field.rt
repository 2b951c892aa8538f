//! Values with one format, alone, optional and in lists.

ghost use Rattle.std.specs.Prelude.{◌≡◌, ◌≤◌, ◌<◌, ◌++◌, [], ◌∷◌, ℕ, List, length, All, OnOk, IsUtf8};
ghost use Rattle.byte_formats.specs.Format.{Format, many_at};
ghost use Rattle.byte_formats.specs.Spelling.{IsName, IsOption, list as list_bytes, option as option_bytes, name as name_bytes, flag as flag_bytes, u32 as u32_bytes, u64 as u64_bytes};
ghost use Rattle.byte_formats.specs.Fields.{name, text, option_at, list_at};
ghost use Rattle.byte_formats.specs.Gives.{Gives, GivesItems};
ghost use Rattle.news_types.specs.Fits.{IsMoment};
ghost use Rattle.news_types.specs.FitsCommands.{FitsStatement, FitsRule};
ghost use Rattle.entry_codec.specs.Formed.{IsFormedPlace, IsFormedStatement, IsFormedRule};
ghost use Rattle.entry_codec.specs.Reading.{moment, place, statement, rule};

use byte_formats::{Input, Stopped, put_name, put_text};
use news_types::{Moment, Name, Names, Place, Rule, Statement, Text};
use std::alloc::{AllocError, Global};

/// A value with one format.
pub trait Field: Drop {
    ghost format: { Format Self };

    ghost fits: { Self → Type 0 };

    ghost formed: { Self → Type 0 };

    /// Reads it from the front.
    fn read(alloc: Global, input: &mut Input) -> Result<Self, Stopped>
        ensures { Gives result input.new (format.read input.old) };

    /// Writes it behind the bytes.
    fn put(&self, out: &mut Vec<u8>) -> Result<(), AllocError>
        requires { fits self.now }
        ensures bytes { OnOk result (out.new.items ≡ out.old.items ++ format.spell self.now) }
        ensures form { OnOk result (formed self.now) };
}

impl Field for Name {
    ghost format = { name };

    ghost fits = { λ _. Unit {0} };

    ghost formed = { IsName };

    fn read(_alloc: Global, input: &mut Input) -> Result<Self, Stopped> {
        input.name()
    }

    fn put(&self, out: &mut Vec<u8>) -> Result<(), AllocError> {
        put_name(out, self)
    }
}

/// A moment.
impl Field for Moment {
    ghost format = { moment };

    ghost fits = { IsMoment };

    ghost formed = { λ _. Unit {0} };

    fn read(_alloc: Global, input: &mut Input) -> Result<Self, Stopped> {
        input.u64_upto(253402300799)
    }

    fn put(&self, out: &mut Vec<u8>) -> Result<(), AllocError> {
        put_u64(out, *self)
    }
}

/// A value of a condition.
impl Field for Text {
    ghost format = { text 500 };

    ghost fits = { λ t. length t ≤ 500 };

    ghost formed = { IsUtf8 };

    fn read(alloc: Global, input: &mut Input) -> Result<Self, Stopped> {
        input.text(alloc, 500)
    }

    fn put(&self, out: &mut Vec<u8>) -> Result<(), AllocError> {
        put_text(out, self)
    }
}

impl Field for Place {
    ghost format = { place };

    ghost fits = { λ _. Unit {0} };

    ghost formed = { IsFormedPlace };

    #[tactic(auto, unfolding(crate::specs::Reading::place_at))]
    fn read(_alloc: Global, input: &mut Input) -> Result<Self, Stopped> {
        Ok(Place {
            desk: input.name()?,
            stage: input.name()?,
        })
    }

    fn put(&self, out: &mut Vec<u8>) -> Result<(), AllocError> {
        put_name(out, &self.desk)?;
        put_name(out, &self.stage)?;
        Ok(())
    }
}

impl Field for Statement {
    ghost format = { statement };

    ghost fits = { FitsStatement };

    ghost formed = { IsFormedStatement };

    #[tactic(auto, unfolding(crate::specs::Reading::statement_at))]
    fn read(alloc: Global, input: &mut Input) -> Result<Self, Stopped> {
        Ok(Statement {
            conditions: names(alloc, input, 16)?,
            filters: names(alloc, input, 8)?,
        })
    }

    fn put(&self, out: &mut Vec<u8>) -> Result<(), AllocError> {
        put_names(out, &self.conditions)?;
        put_names(out, &self.filters)?;
        Ok(())
    }
}

impl Field for Rule {
    ghost format = { rule };

    ghost fits = { FitsRule };

    ghost formed = { IsFormedRule };

    #[tactic(auto, unfolding(crate::specs::Reading::rule_at))]
    fn read(alloc: Global, input: &mut Input) -> Result<Self, Stopped> {
        Ok(Rule {
            filter: option(alloc, input)?,
            days: input.byte(0, 127)?,
            from: input.u32()?,
            to: input.u32()?,
            zone: input.text(alloc, 64)?,
            fetch: option(alloc, input)?,
            publish: input.flag()?,
            exit: input.flag()?,
        })
    }

    fn put(&self, out: &mut Vec<u8>) -> Result<(), AllocError> {
        put_option(out, &self.filter)?;
        put_byte(out, self.days)?;
        put_u32(out, self.from)?;
        put_u32(out, self.to)?;
        put_text(out, &self.zone)?;
        put_option(out, &self.fetch)?;
        put_flag(out, self.publish)?;
        put_flag(out, self.exit)?;
        Ok(())
    }
}

/// Reads a value that may be missing.
#[tactic(auto, unfolding(byte_formats::specs::Fields::option_at))]
pub fn option<T: Field>(alloc: Global, input: &mut Input) -> Result<Option<T>, Stopped>
    ensures { Gives result input.new (option_at T.format input.old) }
{
    if input.byte(0, 1)? == 0 {
        return Ok(None);
    }
    Ok(Some(T::read(alloc, input)?))
}

/// Reads at most so many values.
#[tactic(auto, unfolding(byte_formats::specs::Fields::list_at))]
pub fn list<T: Field>(alloc: Global, input: &mut Input, limit: u16) -> Result<Vec<T>, Stopped>
    ensures { GivesItems result input.new (list_at limit T.format input.old) }
{
    let count = input.u16_upto(limit)?;
    many(alloc, input, count)
}

fn many<T: Field>(alloc: Global, input: &mut Input, count: u16) -> Result<Vec<T>, Stopped>
    ensures { GivesItems result input.new (many_at T.format count input.old) }
{
    let mut items = Vec::new(alloc);
    for _ in 0..count {
        items.push(T::read(alloc, input)?)?;
    }
    Ok(items)
}

/// Reads at most so many names.
pub fn names(alloc: Global, input: &mut Input, limit: u16) -> Result<Names, Stopped>
    ensures { Gives result input.new (list_at limit name input.old) }
{
    Ok(Names::of(list(alloc, input, limit)?))
}

/// Writes a value that may be missing.
pub fn put_option<T: Field>(out: &mut Vec<u8>, value: &Option<T>) -> Result<(), AllocError>
    requires { IsOption T.fits value.now }
    ensures bytes { OnOk result (out.new.items ≡ out.old.items ++ option_bytes T.format.spell value.now) }
    ensures form { OnOk result (IsOption T.formed value.now) }
{
    match value {
        None => put_byte(out, 0),
        Some(value) => {
            put_byte(out, 1)?;
            value.put(out)
        }
    }
}

/// Writes values, of which there are fewer than 65536.
pub fn put_list<T: Field>(out: &mut Vec<u8>, items: &[T]) -> Result<(), AllocError>
    requires few { length items.now < 65536 }
    requires each { All T.fits items.now }
    ensures bytes { OnOk result (out.new.items ≡ out.old.items ++ list_bytes T.format.spell items.now) }
    ensures form { OnOk result (All T.formed items.now) }
{
    out.extend_from_slice(&(items.len() as u16).to_be_bytes())?;
    for item in items {
        item.put(out)?;
    }
    Ok(())
}

/// Writes names, of which there are fewer than 65536.
pub fn put_names(out: &mut Vec<u8>, names: &Names) -> Result<(), AllocError>
    requires { length names.now < 65536 }
    ensures bytes { OnOk result (out.new.items ≡ out.old.items ++ list_bytes name_bytes names.now) }
    ensures form { OnOk result (All IsName names.now) }
{
    put_list(out, names.as_slice())
}

/// Writes a byte.
pub fn put_byte(out: &mut Vec<u8>, byte: u8) -> Result<(), AllocError>
    ensures { OnOk result (out.new.items ≡ out.old.items ++ byte ∷ []) }
{
    out.push(byte)?;
    Ok(())
}

/// Writes a number of four bytes.
pub fn put_u32(out: &mut Vec<u8>, number: u32) -> Result<(), AllocError>
    ensures { OnOk result (out.new.items ≡ out.old.items ++ u32_bytes number) }
{
    out.extend_from_slice(&number.to_be_bytes())
}

/// Writes a number of eight bytes.
pub fn put_u64(out: &mut Vec<u8>, number: u64) -> Result<(), AllocError>
    ensures { OnOk result (out.new.items ≡ out.old.items ++ u64_bytes number) }
{
    out.extend_from_slice(&number.to_be_bytes())
}

/// Writes a byte 0 or 1.
pub fn put_flag(out: &mut Vec<u8>, flag: bool) -> Result<(), AllocError>
    ensures { OnOk result (out.new.items ≡ out.old.items ++ flag_bytes flag) }
{
    put_byte(out, if flag { 1 } else { 0 })
}
