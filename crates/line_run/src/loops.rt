// Lines are answered one after the other.
ghost use Rattle.std.specs.Prelude.{◌≡◌, ◌≤◌, ◌+◌, ◌∷◌, [], ℕ, List, length, take, option_map, OnOk};
ghost use Rattle.input_lines.specs.Lines.{unless_empty, ended_from, open_from};
ghost use Rattle.line_run.specs.Turns.{Did, Causes};

use crate::{Answering, Ending};
use input_lines::{behind, extend_line, line_feed, show, without_return};
use news_io::{Sink, write_through};

/// Answers a line, writes the answer with a line feed, and passes it on.
pub fn answer_line<O: Sink, A: Answering>(
    line: Option<&[u8]>,
    output: &mut O,
    machine: &mut A,
) -> Result<(), Ending>
    requires { (shelf : A.Shelf) × ((h : List A.Entry) × (A.life shelf).stands machine.old h) }
    ensures did { (shelf : A.Shelf) (h : List A.Entry) → (A.life shelf).stands machine.old h → Did (A.meaning shelf) (A.life shelf) O.sink machine.old machine.new output.old output.new h (option_map (λ l. l.now) line.entry ∷ []) result }
    ensures causes { Causes (A.faults machine.old) (A.faults machine.new) (O.sink.faults output.old) (O.sink.faults output.new) result }
{
    let mut text = machine.answer(line)?;
    if let Err(_) = text.push(b'\n') {
        return Err(Ending::Memory);
    }
    if let Err(_) = write_through(output, &text) {
        return Err(Ending::Write);
    }
    Ok(())
}

/// Answers a line, unless it is empty.
pub(crate) fn answer_some<O: Sink, A: Answering>(
    line: &[u8],
    longest: u32,
    output: &mut O,
    machine: &mut A,
) -> Result<(), Ending>
    requires { (shelf : A.Shelf) × ((h : List A.Entry) × (A.life shelf).stands machine.old h) }
    ensures did { (shelf : A.Shelf) (h : List A.Entry) → (A.life shelf).stands machine.old h → Did (A.meaning shelf) (A.life shelf) O.sink machine.old machine.new output.old output.new h (unless_empty longest line.now) result }
    ensures causes { Causes (A.faults machine.old) (A.faults machine.new) (O.sink.faults output.old) (O.sink.faults output.new) result }
{
    if line.is_empty() {
        return Ok(());
    }
    answer_line(show(line, longest), output, machine)
}

/// Answers the lines that end in this piece; `line` has what stands behind the last line feed.
pub(crate) fn answer_piece<O: Sink, A: Answering>(
    line: &mut Vec<u8>,
    piece: &[u8],
    longest: u32,
    output: &mut O,
    machine: &mut A,
) -> Result<(), Ending>
    requires stands { (shelf : A.Shelf) × ((h : List A.Entry) × (A.life shelf).stands machine.old h) }
    requires short { length line.old.items ≤ longest + 2 }
    ensures short { OnOk result (length line.new.items ≤ longest + 2) }
    ensures open { (begun : List ℕ) → line.old.items ≡ take (longest + 2) begun → OnOk result (line.new.items ≡ take (longest + 2) (open_from begun piece.now)) }
    ensures did { (shelf : A.Shelf) (h : List A.Entry) (begun : List ℕ) → (A.life shelf).stands machine.old h → line.old.items ≡ take (longest + 2) begun
        → Did (A.meaning shelf) (A.life shelf) O.sink machine.old machine.new output.old output.new h (ended_from longest begun piece.now) result }
    ensures causes { Causes (A.faults machine.old) (A.faults machine.new) (O.sink.faults output.old) (O.sink.faults output.new) result }
{
    let mut rest = piece;
    while let Some(count) = line_feed(rest) {
        if let Err(_) = extend_line(line, &rest[..count], longest) {
            return Err(Ending::Memory);
        }
        if let Err(why) = answer_some(without_return(line), longest, output, machine) {
            return Err(why);
        }
        line.clear();
        rest = behind(rest, count);
    }
    if let Err(_) = extend_line(line, rest, longest) {
        return Err(Ending::Memory);
    }
    Ok(())
}
