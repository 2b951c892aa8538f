//! Lines of bytes that come in pieces.
//!
//! A line ends at a line feed or at the end of the input; a carriage return before the line feed is dropped, and an
//! empty line is passed over. Of a line that is too long no more is kept than shows that it is.
#![tactic(auto)]

ghost use Rattle.std.specs.Prelude.{◌≡◌, ◌≤◌, ◌<◌, ◌+◌, ◌++◌, ◌^◌, [], List, ℕ, length, take, drop, option_map, OnOk};
ghost use Rattle.input_lines.specs.Lines.{shown, without_cr, CutsAt, LinesAreTheCut, EachInputIsCut, LinesInPieces};

use memchr::memchr;
use std::alloc::AllocError;

/// The place of the first line feed.
pub fn line_feed(bytes: &[u8]) -> Option<usize>
    ensures { CutsAt bytes.now result }
{
    memchr(b'\n', bytes)
}

/// Puts these bytes behind the line, as far as they matter: a byte more than the longest line and its CR.
pub fn extend_line(line: &mut Vec<u8>, bytes: &[u8], longest: u32) -> Result<(), AllocError>
    requires { length line.old.items ≤ longest + 2 }
    ensures kept { OnOk result (line.new.items ≡ take (longest + 2) (line.old.items ++ bytes.now)) }
    ensures short { OnOk result (length line.new.items ≤ longest + 2) }
{
    let room = longest as usize + 2 - line.len();
    let count = room.min(bytes.len());
    line.extend_from_slice(&bytes[..count])?;
    Ok(())
}

/// The line without the CR at its end.
pub fn without_return(line: &[u8]) -> &[u8]
    ensures { result.now ≡ without_cr line.now }
{
    let count = line.len();
    if count == 0 {
        return line;
    }
    if line[count - 1] == b'\r' {
        return &line[..count - 1];
    }
    line
}

/// The line, or nothing where it is too long.
pub fn show(line: &[u8], longest: u32) -> Option<&[u8]>
    ensures { option_map (λ l. l.now) result ≡ shown longest line.now }
{
    if (longest as usize) < line.len() {
        return None;
    }
    Some(line)
}

/// What stands behind the byte at this place.
pub fn behind(bytes: &[u8], at: usize) -> &[u8]
    requires { at < length bytes.now }
    ensures { result.now ≡ drop (at + 1) bytes.now }
{
    let from = &bytes[at..];
    &from[1..]
}

/// The lines of an input are those of its cuts at the line feeds, and each input has such a cut.
pub fn lines_law()
    ensures lines { LinesAreTheCut }
    ensures each { EachInputIsCut }
    ensures pieces { LinesInPieces }
{}
