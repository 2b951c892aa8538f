//! The feeds of the queue.
ghost use Rattle.std.specs.Prelude.{◌≡◌, ◌++◌, string_bytes, IfOk, OnOk};
ghost use Rattle.feed_reports.specs.Queue.{queue_line, queue_report, state_word, summary_report};

use news_types::{Bytes, FeedState, Memory, QueueRow};
use std::alloc::{AllocError, Global};
use std::fmt::Write;

/// The feeds, a line each: the subscriber, how long its feed is, how many of its entries are acknowledged, how often the
/// next was tried, and how the feed fares.
pub fn queue_text(alloc: Global, rows: &[QueueRow]) -> Result<Bytes, Memory>
    ensures { IfOk result (λ bytes. bytes ≡ queue_report rows.now) }
{
    let mut text = String::new(alloc);
    put_rows(&mut text, rows)?;
    Ok(Bytes::of(text.into_bytes()))
}

/// A line with the number of entries of the list, and then the feeds as `queue_text` has them.
pub fn summary_text(alloc: Global, entries: u64, rows: &[QueueRow]) -> Result<Bytes, Memory>
    ensures { IfOk result (λ bytes. bytes ≡ summary_report entries rows.now) }
{
    let mut text = String::new(alloc);
    writeln!(text, "entries {entries}")?;
    put_rows(&mut text, rows)?;
    Ok(Bytes::of(text.into_bytes()))
}

/// Appends the lines of the rows.
fn put_rows(text: &mut String, rows: &[QueueRow]) -> Result<(), AllocError>
    ensures { OnOk result (string_bytes text.new ≡ string_bytes text.old ++ queue_report rows.now) }
{
    for row in rows {
        put_row(text, row)?;
    }
    Ok(())
}

/// Appends the line of a row.
fn put_row(text: &mut String, row: &QueueRow) -> Result<(), AllocError>
    ensures { OnOk result (string_bytes text.new ≡ string_bytes text.old ++ queue_line row.now) }
{
    let QueueRow {
        subscriber,
        length,
        acked,
        tries,
        state,
    } = *row;
    writeln!(
        text,
        "{} length {length} acked {acked} tries {tries} {}",
        subscriber.as_str(),
        state_word(state)
    )
}

fn state_word(state: FeedState) -> &'static str
    ensures { result.now ≡ state_word state }
{
    match state {
        FeedState::Paused => "paused",
        FeedState::Retrying => "retrying",
        FeedState::Pending => "pending",
        FeedState::Waiting => "waiting",
        FeedState::Success => "success",
    }
}
