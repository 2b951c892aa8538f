//! What holds of every import.
ghost use Rattle.subscriber_import.specs.Laws.{RowsAreRecords, AddedIsImported, SecondAddsNothing};

/// The records of a table are those that its text is read as. What they add, put behind a list, is the imported list. Where
/// the same table is imported once more behind that, no record whose subscriber was added or there adds an entry.
pub fn import_law()
    ensures rows { RowsAreRecords }
    ensures added { AddedIsImported }
    ensures again { SecondAddsNothing }
{}
