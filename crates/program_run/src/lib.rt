//! The program's call, said of bytes, lists, events and output.
//!
//! `run` does what the words of a command ask for. Its contract speaks of the bytes of the two files and the list to which they
//! open, of the events of the world that happened to it, and of what was written; no table and no room is in it. It is proved from
//! what the call below says of its room.
#![tactic(auto)]

ghost use Rattle.std.specs.Prelude.{◌≡◌};
ghost use Rattle.command_words.specs.Words.{job_of};
ghost use Rattle.program_run.specs.Does.{Does, Serves, ReceiverServes, StandbyServes, UsesLinks};
ghost use Rattle.program_run.specs.Inputs.{newsroom_formats};

use list_marks::Notices;
use news_io::{Clock, Disk, Link, Sink, Source};
use news_types::Text;
use std::alloc::Global;

/// Does what the words ask for, and gives the status and the two disks back, the log's and the side's. Only `drain` and
/// `ship` use the links; for `receive` the log is a receiver's. The notices hear of a newsroom's store that was opened.
#[tactic(none)]
pub fn run<S: Source, O: Sink, D: Disk, C: Clock, L: Link, N: Notices>(
    alloc: Global,
    words: &[Text],
    input: &mut S,
    output: &mut O,
    log: D,
    side: D,
    clock: &mut C,
    links: &mut Vec<L>,
    notices: &mut N,
) -> (u8, D, D)
    ensures does { Does newsroom_formats
        (record { disk = D.disk; source = S.source; sink = O.sink; clock = C.clock; link = L.link })
        (record { log = log; side = side; input = input.old; output = output.old; clock = clock.old; links = links.old.items })
        (record { log = result.1; side = result.2; input = input.new; output = output.new; clock = clock.new; links = links.new.items })
        (job_of words.now) result.0 }
    // Files that open to a list are never told to be another store's, but where `ask` is given more entries than it has, nor damaged; and a
    // failed disk is told only where one has failed.
    ensures serves { Serves
        (record { disk = D.disk; source = S.source; sink = O.sink; clock = C.clock; link = L.link })
        (record { log = log; side = side; input = input.old; output = output.old; clock = clock.old; links = links.old.items })
        (record { log = result.1; side = result.2; input = input.new; output = output.new; clock = clock.new; links = links.new.items })
        (job_of words.now) result.0 }
    // A receiver's file that is empty or holds its frames is never told to be another's or damaged either.
    ensures receives { ReceiverServes
        (record { disk = D.disk; source = S.source; sink = O.sink; clock = C.clock; link = L.link })
        (record { log = log; side = side; input = input.old; output = output.old; clock = clock.old; links = links.old.items })
        (record { log = result.1; side = result.2; input = input.new; output = output.new; clock = clock.new; links = links.new.items })
        (job_of words.now) result.0 }
    // Nor are a standby's files that are empty or hold its store's list.
    ensures stands_in { StandbyServes
        (record { disk = D.disk; source = S.source; sink = O.sink; clock = C.clock; link = L.link })
        (record { log = log; side = side; input = input.old; output = output.old; clock = clock.old; links = links.old.items })
        (record { log = result.1; side = result.2; input = input.new; output = output.new; clock = clock.new; links = links.new.items })
        (job_of words.now) result.0 }
    // Only `drain` and `ship` change the links.
    ensures links { (UsesLinks (job_of words.now) → ⊥) → links.new.items ≡ links.old.items }
{
    newsdesk_cli::run(
        alloc, words, input, output, log, side, clock, links, notices,
    )
}
