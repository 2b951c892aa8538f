//! The laws of the replies to record lines.
ghost use Rattle.standby_files.specs.Laws.{KeptIsHeld, SentIsTaken};

/// Each reply says of no more records than the standby has at the end, and what it had before stays in front.
pub fn kept_law()
    ensures { KeptIsHeld }
{}

/// Record lines that were sent are taken as the events take them that the laws of a standby speak of.
pub fn sent_law()
    ensures { SentIsTaken }
{}
