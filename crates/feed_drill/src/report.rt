//! The report of a drill.
ghost use Rattle.std.specs.Prelude.{◌≡◌, ◌++◌, List, IfOk, OnOk, string_bytes};
ghost use Rattle.news_io.specs.Devices.{memory_keeper};
ghost use Rattle.feed_receiver.specs.Holds.{Received};
ghost use Rattle.feed_links.specs.Links.{AllHold};
ghost use Rattle.publish_workers.specs.InMemory.{names_of, received_by};
ghost use Rattle.feed_drill.specs.Report.{entries_line, feed_line, row_lines, frame_count};

use feed_links::MemoryLink;
use news_io::MemoryKeeper;
use news_types::{Bytes, Memory, Name, QueueRow};
use std::alloc::{AllocError, Global};
use std::fmt::Write;

/// How many entries the list has, and a line for each feed: how long it is, how many of its entries are acknowledged, and how
/// many frames its receiver holds.
pub(crate) fn report_text(
    alloc: Global,
    entries: u64,
    rows: &[QueueRow],
    link: &MemoryLink<MemoryKeeper>,
) -> Result<Bytes, Memory>
    ensures { (held : List Received) → AllHold memory_keeper link.now held
        → IfOk result (λ bytes. bytes ≡ entries_line entries ++ row_lines (names_of link.now) held rows.now) }
{
    let mut text = String::new(alloc);
    writeln!(text, "entries {entries}")?;
    put_lines(&mut text, rows, link)?;
    Ok(Bytes::of(text.into_bytes()))
}

/// Appends the lines of the feeds.
fn put_lines(
    text: &mut String,
    rows: &[QueueRow],
    link: &MemoryLink<MemoryKeeper>,
) -> Result<(), AllocError>
    ensures { (held : List Received) → AllHold memory_keeper link.now held
        → OnOk result (string_bytes text.new ≡ string_bytes text.old ++ row_lines (names_of link.now) held rows.now) }
{
    for row in rows {
        put_line(text, row, frames_held(link, &row.subscriber))?;
    }
    Ok(())
}

/// How many frames the receiver of a subscriber holds, 0 where it has none.
fn frames_held(link: &MemoryLink<MemoryKeeper>, subscriber: &Name) -> u32
    ensures { (held : List Received) → AllHold memory_keeper link.now held
        → result ≡ frame_count (received_by (names_of link.now) held subscriber.now) }
{
    link.count(subscriber).unwrap_or(0)
}

/// Appends the line of a feed, whose receiver holds so many frames.
fn put_line(text: &mut String, row: &QueueRow, frames: u32) -> Result<(), AllocError>
    ensures { OnOk result (string_bytes text.new ≡ string_bytes text.old ++ feed_line row.now.subscriber row.now.length row.now.acked frames) }
{
    let QueueRow {
        subscriber,
        length,
        acked,
        ..
    } = *row;
    writeln!(
        text,
        "{} length {length} acked {acked} receiver {frames}",
        subscriber.as_str()
    )
}
