//! An import is told: a line for each record.
ghost use Rattle.std.specs.Prelude.{◌≡◌, ◌++◌, IfOk, OnOk, codes, string_bytes};
ghost use Rattle.desk_answers.specs.Words.{denial_word};
ghost use Rattle.subscriber_import.specs.Report as said;

use crate::line::Line;
use desk_answers::word_of_denial;
use news_types::{Bytes, Denial, Memory};
use std::alloc::{AllocError, Global};
use std::fmt::Write;

/// What became of the records behind the head, a line each: the record's number, from 1, a space, and `added`, `there`,
/// `bad`, or `denied` and the denial's name.
pub fn lines_text(alloc: Global, lines: &[Line]) -> Result<Bytes, Memory>
    ensures { IfOk result (λ text. text ≡ said.lines_text 1 lines.now) }
{
    let mut text = String::new(alloc);
    for (index, line) in lines.iter().enumerate() {
        push_line(&mut text, index as u64 + 1, line)?;
    }
    Ok(Bytes::of(text.into_bytes()))
}

/// Appends the line of a record.
fn push_line(text: &mut String, number: u64, line: &Line) -> Result<(), AllocError>
    ensures { OnOk result (string_bytes text.new ≡ string_bytes text.old ++ said.line_text number line.now) }
{
    write!(text, "{number} ")?;
    push_told(text, line)?;
    text.push('\n')?;
    Ok(())
}

/// Appends what became of a record.
fn push_told(text: &mut String, line: &Line) -> Result<(), AllocError>
    ensures { OnOk result (string_bytes text.new ≡ string_bytes text.old ++ said.told_text line.now) }
{
    match line {
        Line::Added => text.push_str("added"),
        Line::There => text.push_str("there"),
        Line::Bad => text.push_str("bad"),
        Line::Denied(denial) => push_denied(text, denial),
    }
}

/// Appends that a request was denied, and the denial's name.
fn push_denied(text: &mut String, denial: &Denial) -> Result<(), AllocError>
    ensures { OnOk result (string_bytes text.new ≡ string_bytes text.old ++ (codes "denied " ++ denial_word denial.now)) }
{
    text.push_str("denied ")?;
    text.push_str(word_of_denial(denial))?;
    Ok(())
}
