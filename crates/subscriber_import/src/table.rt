//! The records of a table are read.
ghost use Rattle.std.specs.Prelude.{◌≡◌, IfOk, map, true};
ghost use Rattle.csv.specs.Reading.{error_kind, stops_reader};
ghost use Rattle.csv.specs.Records.{fields_of};
ghost use Rattle.subscriber_import.specs.Table as said;

use csv::{ByteRecord, Error, ErrorKind, ReaderBuilder};
use news_types::Memory;
use std::alloc::Global;

/// The records of a table of comma-separated values.
pub(crate) fn read_table(alloc: Global, table: &[u8]) -> Result<Vec<ByteRecord>, Memory>
    ensures { IfOk result (λ records. map fields_of records.items ≡ said.rows_of table.now) }
{
    let reader = ReaderBuilder::new()
        .has_headers(false)
        .flexible(true)
        .from_reader(alloc, table);
    let mut records = Vec::new(alloc);
    for row in reader.into_byte_records() {
        match row {
            Ok(row) => records.push(row)?,
            Err(error) => return Err(no_memory(error)),
        }
    }
    Ok(records)
}

/// That there was no memory: a reader over bytes that lie in memory, which takes records of any length, has no other cause to
/// fail.
fn no_memory(error: Error) -> Memory
    requires { stops_reader (error_kind error) ≡ true }
{
    match error.into_kind() {
        ErrorKind::Io(_) | ErrorKind::OutOfMemory => Memory,
        ErrorKind::Utf8 { .. }
        | ErrorKind::UnequalLengths { .. }
        | ErrorKind::Serialize(_)
        | ErrorKind::Deserialize { .. } => unreachable!(),
    }
}

/// Whether the first record of a table is its head.
pub(crate) fn is_head(row: &ByteRecord) -> bool
    ensures { result ≡ said.is_head (fields_of row.now) }
{
    row.len() == 4
        && is_word(row, 0, b"subscriber")
        && is_word(row, 1, b"format")
        && is_word(row, 2, b"products")
        && is_word(row, 3, b"lag")
}

/// Whether a field of a record is this word.
fn is_word(row: &ByteRecord, at: usize, word: &[u8]) -> bool
    ensures { result ≡ said.has_word (fields_of row.now) at word.now }
{
    match row.get(at) {
        Some(field) => field == word,
        None => false,
    }
}
