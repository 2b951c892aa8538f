//! The answer to a query, as a text of lines.
ghost use Rattle.std.specs.Prelude.{◌≡◌, ◌++◌, IfOk, OnOk, string_bytes};
ghost use Rattle.std.specs.List.{flat_map};
ghost use Rattle.news_types.specs.Books.{Book};
ghost use Rattle.news_room.specs.Stands.{Stands, SomeBook};
ghost use Rattle.archive_search.specs.Answers.{AnswersQuery, bad_line, hit_line, total_line};

use crate::asked::{Asked, Hits, ask_archive};
use crate::hit::{Hit, put_hit};
use crate::told::refused_object;
use news_io::Keeper;
use news_room::Room;
use news_types::{Bytes, Memory};
use std::alloc::{AllocError, Global};
use std::fmt::Write;

/// The answer to a query: how many publications it finds, and those of a page, a line each; or the place from which on the
/// text is no query.
pub fn answer_text<K: Keeper>(
    alloc: Global,
    room: &Room<K>,
    page: u32,
    query: &str,
) -> Result<Bytes, Memory>
    requires { SomeBook K.keeper room.now }
    ensures { IfOk result (λ bytes. (b : Book) → Stands K.keeper room.now b → AnswersQuery b.list page query.now bytes) }
{
    match ask_archive(alloc, room, page, query)? {
        Asked::Found(found) => found_text(alloc, &found),
        Asked::Refused { at } => refused_text(alloc, at),
    }
}

/// That a text is no query from this place on, as a line.
fn refused_text(alloc: Global, at: u64) -> Result<Bytes, Memory>
    ensures { IfOk result (λ bytes. bytes ≡ bad_line at) }
{
    let mut line = refused_object(alloc, at)?.into_vec();
    line.push(b'\n')?;
    Ok(Bytes::of(line))
}

/// How many publications were found, and those of a page, a line each.
fn found_text(alloc: Global, found: &Hits) -> Result<Bytes, Memory>
    ensures { IfOk result (λ bytes. bytes ≡ total_line found.now.total ++ flat_map hit_line found.now.rows.items) }
{
    let mut text = String::new(alloc);
    writeln!(text, "total {}", found.total)?;
    put_hits(&mut text, &found.rows)?;
    Ok(Bytes::of(text.into_bytes()))
}

/// Appends the lines of these publications.
fn put_hits(text: &mut String, hits: &[Hit]) -> Result<(), AllocError>
    ensures { OnOk result (string_bytes text.new ≡ string_bytes text.old ++ flat_map hit_line hits.now) }
{
    for hit in hits {
        put_hit(text, hit)?;
    }
    Ok(())
}
