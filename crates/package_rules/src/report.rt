//! What a package holds, as lines.
ghost use Rattle.std.specs.Prelude.{◌≡◌, ◌++◌, ◌∷◌, [], IfOk, OnOk, string_bytes};
ghost use Rattle.std.specs.List.{flat_map};
ghost use Rattle.news_types.specs.Books.{Book};
ghost use Rattle.news_room.specs.Stands.{Stands, SomeBook};
ghost use Rattle.package_rules.specs.Report.{line_text, place_text, numbers_text, contents_report as report_of};

use crate::association::associations;
use crate::lines::Line;
use crate::walk::{contents, members_of};
use itoa::Buffer;
use news_io::Keeper;
use news_room::Room;
use news_types::{Bytes, Memory};
use std::alloc::{AllocError, Global};
use uuid::Uuid;

/// The report on a publication: a line for each member, `depth role item publication`, and last its associations, as one
/// object. It is `{}` where the publication is no package.
pub fn contents_report<K: Keeper>(
    alloc: Global,
    room: &Room<K>,
    store: Uuid,
    number: u32,
) -> Result<Bytes, Memory>
    requires { SomeBook K.keeper room.now }
    ensures { IfOk result (λ report. (b : Book) → Stands K.keeper room.now b → report ≡ report_of b.list store number) }
{
    let lines = contents(alloc, room, number)?;
    let members = members_of(alloc, room, number)?;
    let object = associations(alloc, members.as_slice(), store)?;
    report_text(alloc, lines.as_slice(), object.as_slice())
}

/// The lines, and behind them the object as a line.
fn report_text(alloc: Global, lines: &[Line], object: &[u8]) -> Result<Bytes, Memory>
    ensures { IfOk result (λ report. report ≡ flat_map line_text lines.now ++ (object.now ++ 10 ∷ [])) }
{
    let mut text = contents_text(alloc, lines)?.into_bytes();
    text.extend_from_slice(object)?;
    text.push(b'\n')?;
    Ok(Bytes::of(text))
}

/// The lines, one behind the other.
fn contents_text(alloc: Global, lines: &[Line]) -> Result<String, Memory>
    ensures { IfOk result (λ text. string_bytes text ≡ flat_map line_text lines.now) }
{
    let mut text = String::new(alloc);
    for line in lines {
        push_line(&mut text, line)?;
    }
    Ok(text)
}

/// Appends a line.
fn push_line(text: &mut String, line: &Line) -> Result<(), AllocError>
    ensures { OnOk result (string_bytes text.new ≡ string_bytes text.old ++ line_text line.now) }
{
    push_place(text, line)?;
    push_numbers(text, line)?;
    Ok(())
}

/// Appends how deep a line is, and its role.
fn push_place(text: &mut String, line: &Line) -> Result<(), AllocError>
    ensures { OnOk result (string_bytes text.new ≡ string_bytes text.old ++ place_text line.now) }
{
    let mut digits = Buffer::new();
    text.push_str(digits.format(line.depth))?;
    text.push(' ')?;
    text.push_str(line.role.as_str())?;
    text.push(' ')?;
    Ok(())
}

/// Appends the item and the publication of a line.
fn push_numbers(text: &mut String, line: &Line) -> Result<(), AllocError>
    ensures { OnOk result (string_bytes text.new ≡ string_bytes text.old ++ numbers_text line.now) }
{
    let mut digits = Buffer::new();
    text.push_str(digits.format(line.item))?;
    text.push(' ')?;
    text.push_str(digits.format(line.publication))?;
    text.push('\n')?;
    Ok(())
}
