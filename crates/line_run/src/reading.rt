// The input is read in pieces, and its members are answered as they are decided.
ghost use Rattle.std.specs.Prelude.{◌≡◌, ◌≤◌, ◌<◌, ◌+◌, ◌^◌, ◌++◌, [], ℕ, List, length, take, IfOk, OnErr};
ghost use Rattle.news_io.specs.Faults.{Counts};
ghost use Rattle.run_status.specs.Output.{AllPassed};
ghost use Rattle.line_run.specs.Run.{Ran, ReadsTo, Ends, NotByOutput};

use crate::{Ending, Members};
use news_io::{Failed, Sink, Source};
use std::alloc::{AllocError, Global};

const PIECE: usize = 65536;

/// Reads at most so many bytes and one more.
pub fn read_piece<S: Source>(input: &mut S, piece: &mut [u8], left: u64) -> Result<usize, Failed>
    requires left { left < 2 ^ 63 }
    ensures within { IfOk result (λ n. (n ≤ length piece.old) × (n ≤ left + 1)) }
    ensures bytes { S.source.tells input.old → IfOk result (λ n. S.source.ahead input.old ≡ take n piece.new ++ S.source.ahead input.new) }
    ensures end { S.source.tells input.old → 0 < length piece.old → IfOk result (λ n. n ≡ 0 → S.source.ahead input.old ≡ []) }
    ensures err { S.source.tells input.old → OnErr result (S.source.ahead input.new ≡ S.source.ahead input.old) }
    ensures told { S.source.tells input.old → S.source.tells input.new }
    ensures count { Counts (S.source.faults input.old) (S.source.faults input.new) result }
{
    let room = (piece.len() as u64).min(left + 1) as usize;
    let count = input.read(&mut piece[..room])?;
    Ok(count)
}

/// Answers the members that are decided before the end of the input, and reads up to it.
fn answer_pieces<S: Source, O: Sink, M: Members>(
    input: &mut S,
    output: &mut O,
    members: &mut M,
    piece: &mut [u8],
    most: u64,
) -> Result<(), Ending>
    requires stands { (shelf : M.Shelf) × ((h : List M.Entry) × (M.life shelf).stands members.old h) }
    requires most { most < 2 ^ 63 }
    requires room { 0 < length piece.old }
    requires begins { M.has_read members.old [] }
    ensures reads { (shelf : M.Shelf) (h : List M.Entry) → (M.life shelf).stands members.old h → ReadsTo (M.meaning shelf) (M.life shelf) S.source O.sink (M.decided shelf) (M.all shelf) most (M.has_read members.new) input.old input.new members.old members.new output.old output.new h result }
    ensures ends { Ends (S.source.faults input.old) (S.source.faults input.new) (M.faults members.old) (M.faults members.new) (O.sink.faults output.old) (O.sink.faults output.new) result }
{
    let mut left = most;
    'pieces: loop {
        let Ok(count) = read_piece(input, piece, left) else {
            return Err(Ending::Read);
        };
        if count == 0 {
            return Ok(());
        }
        if count as u64 > left {
            if let Err(why) = members.answer_piece(&piece[..left as usize], output) {
                return Err(why);
            }
            return Err(Ending::TooLong);
        }
        if let Err(why) = members.answer_piece(&piece[..count], output) {
            return Err(why);
        }
        left -= count as u64;
    }
}

/// Room for a piece of the input.
pub fn empty_piece(alloc: Global) -> Result<Vec<u8>, AllocError>
    ensures { IfOk result (λ piece. 0 < length piece.items) }
{
    vec![in alloc; 0; PIECE]
}

/// Answers the members of the input, in order. Each answer passes on before the next member is looked at, and what was
/// written before passes on before the first.
pub fn answer_members<S: Source, O: Sink, M: Members>(
    alloc: Global,
    input: &mut S,
    output: &mut O,
    members: &mut M,
    most: u64,
) -> Result<(), Ending>
    requires stands { (shelf : M.Shelf) × ((h : List M.Entry) × (M.life shelf).stands members.old h) }
    requires most { most < 2 ^ 63 }
    requires begins { M.has_read members.old [] }
    ensures passed { O.sink.tells output.old → NotByOutput result → AllPassed O.sink output.new }
    ensures ran { (shelf : M.Shelf) (h : List M.Entry) → (M.life shelf).stands members.old h → Ran (M.meaning shelf) (M.life shelf) S.source O.sink (M.decided shelf) (M.all shelf) most input.old input.new members.old members.new output.old output.new h result }
    ensures ends { Ends (S.source.faults input.old) (S.source.faults input.new) (M.faults members.old) (M.faults members.new) (O.sink.faults output.old) (O.sink.faults output.new) result }
{
    if let Err(_) = output.flush() {
        return Err(Ending::Write);
    }
    let Ok(mut piece) = empty_piece(alloc) else {
        return Err(Ending::Memory);
    };
    if let Err(why) = answer_pieces(input, output, members, &mut piece, most) {
        return Err(why);
    }
    if let Err(why) = members.answer_end(output) {
        return Err(why);
    }
    Ok(())
}
