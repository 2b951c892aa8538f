//! What a receiver's run does as events of the world.
//!
//! Each function states one law and does nothing: its contract is the law, over the definitions that the contract of
//! `receive_frames` cites too.
#![tactic(auto)]

ghost use Rattle.receiver_events.specs.Receptions.{ReceptionsAreEvents};
ghost use Rattle.receiver_events.specs.Reopenings.{ReopeningsAreEvents, RunsBeginReopened};

use news_io::{Disk, Sink, Source};

/// Whatever the contract of `receive_frames` says that it did is events of each world whose receiver of that name holds the
/// frames to which the file opened, and in which the frames that came were sent: one for each frame that was answered, in
/// order, and one for a frame that was begun, unless memory was wanting for it. They lead to the frames that the file is left
/// with, the first of them to each list that a crash may leave, and whatever is in doubt behind the run is in doubt in the
/// world. The receipts that the world has more are those whose lines were written, and nothing else of it has changed.
pub fn receptions_are_events<D: Disk, S: Source, O: Sink>()
    ensures { ReceptionsAreEvents D.disk S.source O.sink }
{}

/// What a run leaves of the file is what a reopening of the receiver finds in the world: behind all of these events as a read
/// gives the file and as a crash leaves it then, and behind the first of them as a crash leaves it in the course of the run.
/// With what it finds the next run begins.
pub fn reopenings_are_events<D: Disk, S: Source, O: Sink>()
    ensures left { ReopeningsAreEvents D.disk S.source O.sink }
    ensures next { RunsBeginReopened D.disk S.source O.sink }
{}
