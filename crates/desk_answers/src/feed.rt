//! The answer to a question for a feed, written token by token.
ghost use Rattle.std.specs.Prelude.{◌≡◌, ◌++◌, ◌∷◌, OnOk, IfOk};
ghost use Rattle.json.specs.Tree.{json_tokens, items_tokens};
ghost use Rattle.serde_json.specs.Data.{object};
ghost use Rattle.serde_json.specs.Written.{outline, items_outline};
ghost use Rattle.desk_answers.specs.Members.{objects};
ghost use Rattle.desk_answers.specs.Answers.{feed_row, feed_bytes};

use crate::words;
use json::Writer;
use news_types::{Bytes, FeedRow, Memory, Name};
use std::alloc::{AllocError, Global};

/// How much room is made for a row.
const ROW: usize = 128;

/// Writes a row.
fn put_row(out: &mut Writer, row: &FeedRow) -> Result<(), AllocError>
    ensures before { out.new.before ≡ out.old.before }
    ensures tokens { OnOk result (out.new.tokens ≡ out.old.tokens ++ json_tokens (outline (object (feed_row row.now)))) }
{
    out.begin_object()?;
    out.key("item")?;
    out.u64(row.item as u64)?;
    out.key("k")?;
    out.u64(row.k as u64)?;
    out.key("kind")?;
    out.string(words::word_of_kind(row.kind))?;
    out.key("publication")?;
    out.u64(row.publication as u64)?;
    out.key("release")?;
    out.u64(row.release)?;
    out.key("version")?;
    out.u64(row.version as u64)?;
    out.end_object()
}

/// Writes rows, and the end of their list.
fn put_rows(out: &mut Writer, rows: &[FeedRow]) -> Result<(), AllocError>
    ensures before { out.new.before ≡ out.old.before }
    ensures tokens { OnOk result (out.new.tokens ≡ out.old.tokens ++ items_tokens (items_outline (objects feed_row rows.now))) }
{
    for row in rows {
        put_row(out, row)?;
    }
    out.end_array()
}

/// A feed, or a part of it.
pub(crate) fn feed_text(
    alloc: Global,
    subscriber: &Name,
    length: u32,
    rows: &[FeedRow],
) -> Result<Bytes, Memory>
    ensures { IfOk result (λ bytes. bytes ≡ feed_bytes subscriber.now length rows.now) }
{
    let mut out = Writer::new(Vec::with_capacity(
        alloc,
        ROW.saturating_mul(rows.len().saturating_add(1)),
    )?);
    out.begin_object()?;
    out.key("answer")?;
    out.string("feed")?;
    out.key("entries")?;
    out.begin_array()?;
    put_rows(&mut out, rows)?;
    out.key("length")?;
    out.u64(length as u64)?;
    out.key("subscriber")?;
    out.string(subscriber.as_str())?;
    out.end_object()?;
    Ok(Bytes::of(out.into_inner()))
}
