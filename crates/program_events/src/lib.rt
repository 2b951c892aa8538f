//! The program's runs as events of the world.
//!
//! Each function states one law and does nothing: its contract is the law, over the definitions that the contracts of the
//! program's calls cite too.
#![tactic(auto)]

ghost use Rattle.program_events.specs.Chains.{ChainsAreEvents, NewStoresAreEmpty};
ghost use Rattle.program_events.specs.Runs.{RunsAreEvents};
ghost use Rattle.program_events.specs.Turns.{TurnsAreEvents};

use news_io::{Clock, Disk, Link, Sink, Source};

/// The lines of an input that were answered are events of the world, in order: they lead to the list that the lines' outcomes
/// lead to, and the world's answers are those of the lines. What the receivers hold, and what is on its way, stays as it is.
pub fn lines_are_events()
    ensures { TurnsAreEvents }
{}

/// Whatever the program's contract says that it did is events of each world that has the list to which the files opened: those
/// of the lines or stories that were answered, and of one that was begun, or a tick and a question, or the turns of what was
/// pushed. They lead to the list that the files are left with,
/// the first of them to each list that a crash may leave, and whatever is in doubt behind the run is in doubt in the world.
pub fn runs_are_events<D: Disk, C: Clock, S: Source, O: Sink, L: Link>()
    ensures { RunsAreEvents D.disk C.clock S.source O.sink L.link }
{}

/// A list of runs and crashes, from a new store on, is a list of events, and what it leaves opens to the list of a world of
/// which the headline holds.
pub fn chains_are_events<D: Disk, C: Clock, S: Source, O: Sink, L: Link>()
    ensures { ChainsAreEvents D.disk C.clock S.source O.sink L.link }
{}

/// The files that `init` has made open to the empty list, whatever a crash leaves of them.
pub fn new_stores_are_empty<D: Disk, O: Sink>()
    ensures { NewStoresAreEmpty D.disk O.sink }
{}
