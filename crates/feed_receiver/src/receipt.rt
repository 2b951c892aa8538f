//! Receipts: the word `RECEIPT`, the subscriber and how many frames of its feed it holds, each behind
//! a space, and a line feed.

ghost use Rattle.std.specs.Prelude.{◌≡◌, ℕ, Some, IfSome, IfErr};
ghost use Rattle.news_types.specs.Names.{Bytes};
ghost use Rattle.byte_formats.specs.Gives.{Gives, GivesAll, IsFault, all_of};
ghost use Rattle.feed_receiver.specs.Spelling.{receipt_bytes, IsReceipt};
ghost use Rattle.feed_receiver.specs.Formats.{receipt_at, receipt, receipt_of};

use crate::line::Line;
use byte_formats::{Input, SmallBytes, Stopped};
use news_types::Name;

/// The line that says that the subscriber holds so many frames. It takes no memory.
pub fn receipt_line(name: &Name, n: u32) -> Line
    ensures bytes { result ≡ receipt_bytes name.now n }
    ensures form { IsReceipt name.now n }
{
    let mut line: SmallBytes<128> = SmallBytes::new();
    line.push_slice(b"RECEIPT ");
    line.push_slice(name.as_bytes());
    line.push_slice(b" ");
    line.push_decimal(n as u64);
    line.push_slice(b"\n");
    Line { bytes: line }
}

/// The name and the number of a receipt; nothing where the bytes are not a receipt line, all of
/// them. It takes no memory.
pub fn read_receipt(line: &[u8]) -> Option<(Name, u32)>
    ensures value { result ≡ receipt_of line.now }

    // What is read is so written,
    ensures found { IfSome result (λ r. IsReceipt r.0 r.1 × (line.now ≡ receipt_bytes r.0 r.1)) }

    // and what is so written is read.
    ensures only { (name : Bytes) (n : ℕ) → IsReceipt name n → line.now ≡ receipt_bytes name n → result ≡ Some (name, n) }
{
    match whole_receipt(line) {
        Ok(receipt) => Some(receipt),
        Err(_) => None,
    }
}

/// The receipt that all of the bytes are.
#[tactic(auto, unfolding(byte_formats::specs::Gives::all_of))]
fn whole_receipt(line: &[u8]) -> Result<(Name, u32), Stopped>
    ensures gives { GivesAll result (all_of receipt line.now) }
    ensures calm { IfErr result IsFault }
{
    let mut input = Input::new(line);
    let receipt = next_receipt(&mut input)?;
    let left = input.left();
    if left != 0 {
        return Err(Stopped::Left(left));
    }
    Ok(receipt)
}

#[tactic(auto, unfolding(crate::specs::Formats::receipt_at))]
fn next_receipt(input: &mut Input) -> Result<(Name, u32), Stopped>
    ensures gives { Gives result input.new (receipt_at input.old) }
    ensures calm { IfErr result IsFault }
{
    input.literal(b"RECEIPT ")?;
    Ok((input.word()?, input.decimal(b'\n', 0, u32::MAX)?))
}
