//! The entries of a feed.
ghost use Rattle.std.specs.Prelude.{◌≡◌, ◌++◌, string_bytes, IfOk, OnOk};
ghost use Rattle.feed_reports.specs.Feed.{feed_line, feed_report, kind_word};

use news_types::{Bytes, FeedRow, Kind, Memory};
use release_rules::text_of_moment;
use std::alloc::{AllocError, Global};
use std::fmt::Write;

/// The rows of a feed, a line each: place, publication, item, version, kind and release.
pub fn feed_text(alloc: Global, rows: &[FeedRow]) -> Result<Bytes, Memory>
    ensures { IfOk result (λ bytes. bytes ≡ feed_report rows.now) }
{
    let mut text = String::new(alloc);
    for row in rows {
        put_row(&mut text, row)?;
    }
    Ok(Bytes::of(text.into_bytes()))
}

/// Appends the line of a row.
fn put_row(text: &mut String, row: &FeedRow) -> Result<(), AllocError>
    ensures { OnOk result (string_bytes text.new ≡ string_bytes text.old ++ feed_line row.now) }
{
    let FeedRow {
        k,
        item,
        publication,
        kind,
        version,
        release,
    } = *row;
    let release = text_of_moment(release);
    writeln!(
        text,
        "{k} {publication} {item} {version} {} {}",
        kind_word(kind),
        release.as_str()
    )
}

fn kind_word(kind: Kind) -> &'static str
    ensures { result.now ≡ kind_word kind }
{
    match kind {
        Kind::First => "first",
        Kind::Correct => "correct",
        Kind::Kill => "kill",
        Kind::Recall => "recall",
    }
}
