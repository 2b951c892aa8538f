//! The laws of record lines and of their replies.

ghost use Rattle.record_lines.specs.Laws.{RecordsAreReadAgain, RepliesAreReadAgain};

/// A record line is read again whatever bytes follow it, so no two have the same bytes, and none begins another; a
/// fault is at the first byte with which no record line goes on; and a record line has at most 4194335 bytes.
pub fn records_law()
    ensures { RecordsAreReadAgain }
{}

/// A reply is read as the count that it was written for, and every other line as none.
pub fn replies_law()
    ensures { RepliesAreReadAgain }
{}
