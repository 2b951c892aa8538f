//! Runs of the newsroom and of receivers, and crashes, as events of one world.
//!
//! Each function states one law and does nothing: its contract is the law, over the definitions that the contracts of the
//! program's calls cite too.
#![tactic(auto)]

ghost use Rattle.system_events.specs.Systems.{SystemsAreEvents, FilesHoldFeeds, SentIsOfFeeds};

use news_io::{Clock, Disk, Link, Sink, Source};

/// Runs of the newsroom's commands on its two files and runs of `receive` on the files of names, each with a crash or without,
/// in any order, from a new store and empty files on, are one list of events of the world. What comes to a receiver is of the
/// feeds on the list to which the newsroom's files open then; any of it may be lost, and it may come repeatedly and in any
/// order. The newsroom's files are left to the list of the world's server, and each receiver's file gives what the world's
/// receiver of that name holds, or is half made where that one holds nothing. Of that world the headline holds.
pub fn systems_are_events<D: Disk, C: Clock, S: Source, O: Sink, L: Link>()
    ensures { SystemsAreEvents D.disk C.clock S.source O.sink L.link }
{}

/// So whatever the newsroom and the receivers do, and wherever they crash, what the file of a receiver gives is a prefix of its
/// subscriber's feed on the list to which the newsroom's files open.
pub fn files_hold_feeds<D: Disk, C: Clock, S: Source, O: Sink, L: Link>()
    ensures { FilesHoldFeeds D.disk C.clock S.source O.sink L.link }
{}

/// What was ever sent in a world is of the feeds on the list that it has: so what comes to a receiver is, where it was sent.
pub fn sent_is_of_feeds()
    ensures { SentIsOfFeeds }
{}
