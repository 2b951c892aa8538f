// One record line is answered.
ghost use Rattle.std.specs.Prelude.{◌≡◌, ◌≤◌, ◌<◌, ◌+◌, ◌^◌, length};
ghost use Rattle.record_lines.specs.Spelling.{Numbered};
ghost use Rattle.record_lines.specs.Reads.{AreRecord};
ghost use Rattle.frame_run.specs.Answers.{Causes};
ghost use Rattle.standby_files.specs.Answers.{outcome as outcome_of, Copied, Stands, Answered};

use frame_run::Ending;
use news_io::{Keeper, Sink, write_through};
use record_lines::whole_record;
use room_standby::{Shipped, Standby};

/// Where the payload of a record line begins in it.
fn payload_place(line: &[u8]) -> u64
    ensures within { result ≤ length line.now }
    ensures place { (r : Numbered) → AreRecord r line.now → result + length r.payload ≡ length line.now }
{
    match whole_record(line) {
        Ok(record) => (line.len() as u64).saturating_sub(record.payload.len() as u64),
        Err(_) => 0,
    }
}

/// What ends the run at a record line of which the standby makes this, and whose payload begins at this place of the input;
/// each other one is answered.
fn outcome(head: u64, answer: Shipped) -> Result<(), Ending>
    ensures { result ≡ outcome_of head answer }
{
    match answer {
        Shipped::Fault => Err(Ending::Store),
        Shipped::Full { .. } => Err(Ending::Full),
        Shipped::Memory => Err(Ending::Memory),
        Shipped::NoEntry { at } => Err(Ending::BadFrame {
            at: head.saturating_add(at),
        }),
        // A whole record line is never a bad one.
        Shipped::BadRecord { .. }
        | Shipped::Known { .. }
        | Shipped::Ahead { .. }
        | Shipped::Accepted { .. } => Ok(()),
    }
}

/// Gives a record line, which begins at this place of the input, to the standby, writes how many records that then has, and
/// passes it on. The reply goes out only once the record is kept.
#[tactic(none)]
pub(crate) fn answer_record<O: Sink, K: Keeper>(
    line: &[u8],
    begun: u64,
    output: &mut O,
    standby: &mut Standby<K>,
) -> Result<(), Ending>
    requires { begun + length line.now < 2 ^ 64 }
    ensures did { (b : Copied) → Stands K.keeper standby.old b → (r : Numbered) → AreRecord r line.now
        → Answered K.keeper O.sink standby.old standby.new output.old output.new b r (begun + length line.now) result }
    ensures causes { Causes (K.keeper.faults standby.old.keeper) (K.keeper.faults standby.new.keeper) (O.sink.faults output.old) (O.sink.faults output.new) result }
{
    let answer = standby.take(line);
    let head = begun + payload_place(line);
    if let Err(why) = outcome(head, answer) {
        return Err(why);
    }
    if let Err(_) = write_through(output, standby.kept().as_slice()) {
        return Err(Ending::Write);
    }
    Ok(())
}
