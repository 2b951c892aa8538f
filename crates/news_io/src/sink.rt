//! Bytes that go out.
ghost use Rattle.std.specs.Prelude.{◌≡◌, ◌≤◌, ◌<◌, ◌++◌, ℕ, length, take, IfOk, OnOk, OnErr};
ghost use Rattle.news_io.specs.Faults.{Counts};
ghost use Rattle.news_io.specs.Sink.{AreFirst, SinkMeaning};

use crate::Failed;

/// Where bytes go.
pub trait Sink {
    /// What the sink means.
    ghost sink: { SinkMeaning Self };

    /// Takes the first of these bytes, at least one where there is one: to take none is a fault. A failure takes none.
    /// What has passed on is never taken back.
    fn write(&mut self, from: &[u8]) -> Result<usize, Failed>
        ensures within { IfOk result (λ n. n ≤ length from.now) }
        ensures some { 0 < length from.now → IfOk result (λ n. 0 < n) }
        ensures bytes { sink.tells self.old → IfOk result (λ n. sink.taken self.new ≡ sink.taken self.old ++ take n from.now) }
        ensures err { sink.tells self.old → OnErr result (sink.taken self.new ≡ sink.taken self.old) }
        ensures kept { sink.tells self.old → AreFirst (sink.passed self.old) (sink.passed self.new) }
        ensures told { sink.tells self.old → sink.tells self.new }
        ensures count { Counts (sink.faults self.old) (sink.faults self.new) result };

    /// Passes on what the sink holds back: all of it, unless it fails.
    fn flush(&mut self) -> Result<(), Failed>
        ensures same { sink.tells self.old → sink.taken self.new ≡ sink.taken self.old }
        ensures passed { sink.tells self.old → OnOk result (sink.passed self.new ≡ sink.taken self.new) }
        ensures kept { sink.tells self.old → AreFirst (sink.passed self.old) (sink.passed self.new) }
        ensures told { sink.tells self.old → sink.tells self.new }
        ensures count { Counts (sink.faults self.old) (sink.faults self.new) result };
}

/// Writes these bytes, or the first of them where the sink fails.
pub fn write_all<O: Sink>(sink: &mut O, bytes: &[u8]) -> Result<(), Failed>
    ensures ok { O.sink.tells sink.old → OnOk result (O.sink.taken sink.new ≡ O.sink.taken sink.old ++ bytes.now) }
    ensures err { OnErr result ((n : ℕ) × (n ≤ length bytes.now) × (O.sink.tells sink.old → O.sink.taken sink.new ≡ O.sink.taken sink.old ++ take n bytes.now)) }
    ensures kept { O.sink.tells sink.old → AreFirst (O.sink.passed sink.old) (O.sink.passed sink.new) }
    ensures told { O.sink.tells sink.old → O.sink.tells sink.new }
    ensures count { Counts (O.sink.faults sink.old) (O.sink.faults sink.new) result }
{
    let mut done = 0;
    while done < bytes.len() {
        done += sink.write(&bytes[done..])?;
    }
    Ok(())
}

/// Writes these bytes and passes on all that the sink holds back, or writes the first of them where the sink fails.
pub fn write_through<O: Sink>(sink: &mut O, bytes: &[u8]) -> Result<(), Failed>
    ensures ok { O.sink.tells sink.old → OnOk result (O.sink.taken sink.new ≡ O.sink.taken sink.old ++ bytes.now) }
    ensures passed { O.sink.tells sink.old → OnOk result (O.sink.passed sink.new ≡ O.sink.taken sink.new) }
    ensures err { OnErr result ((n : ℕ) × (n ≤ length bytes.now) × (O.sink.tells sink.old → O.sink.taken sink.new ≡ O.sink.taken sink.old ++ take n bytes.now)) }
    ensures kept { O.sink.tells sink.old → AreFirst (O.sink.passed sink.old) (O.sink.passed sink.new) }
    ensures told { O.sink.tells sink.old → O.sink.tells sink.new }
    ensures count { Counts (O.sink.faults sink.old) (O.sink.faults sink.new) result }
{
    write_all(sink, bytes)?;
    sink.flush()
}
