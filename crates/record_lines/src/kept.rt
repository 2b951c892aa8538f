//! Replies to record lines: the word `KEPT`, and how many records are kept, behind a space; and a line feed.

ghost use Rattle.std.specs.Prelude.{◌≡◌, ◌≤◌, ℕ, Some, IfSome, IfErr, length};
ghost use Rattle.byte_formats.specs.Gives.{Gives, GivesAll, IsFault, all_of};
ghost use Rattle.record_lines.specs.Spelling.{kept_bytes, IsCount};
ghost use Rattle.record_lines.specs.Formats.{kept_at, kept, kept_of};

use crate::number;
use byte_formats::{Input, SmallBytes, Stopped};
use feed_receiver::Line;

/// The line that says that so many records are kept. It takes no memory.
pub fn kept_line(c: u64) -> Line
    ensures { result ≡ kept_bytes c }
{
    let mut line: SmallBytes<128> = SmallBytes::new();
    line.push_slice(b"KEPT ");
    line.push_decimal(c);
    line.push_slice(b"\n");
    Line::of(line.as_slice())
}

/// How many records a reply says are kept; nothing where the bytes are no such reply, all of them. It takes no memory.
pub fn read_kept(line: &[u8]) -> Option<u64>
    ensures value { result ≡ kept_of line.now }

    // What is read is so written,
    ensures found { IfSome result (λ c. line.now ≡ kept_bytes c) }

    // and what is so written is read.
    ensures only { (c : ℕ) → IsCount c → line.now ≡ kept_bytes c → result ≡ Some c }
{
    match whole_kept(line) {
        Ok(c) => Some(c),
        Err(_) => None,
    }
}

/// The count that all of the bytes say.
#[tactic(auto, unfolding(byte_formats::specs::Gives::all_of))]
fn whole_kept(line: &[u8]) -> Result<u64, Stopped>
    ensures gives { GivesAll result (all_of kept line.now) }
    ensures calm { IfErr result IsFault }
{
    let mut input = Input::new(line);
    let c = next_kept(&mut input)?;
    let left = input.left();
    if left != 0 {
        return Err(Stopped::Left(left));
    }
    Ok(c)
}

#[tactic(auto, unfolding(crate::specs::Formats::kept_at))]
fn next_kept(input: &mut Input) -> Result<u64, Stopped>
    ensures gives { Gives result input.new (kept_at input.old) }
    ensures calm { IfErr result IsFault }
{
    input.literal(b"KEPT ")?;
    Ok(number::decimal(input, b'\n', 0, u64::MAX)?)
}
