// The answers of a wire are told as one object.
ghost use Rattle.std.specs.Prelude.{◌≡◌, ◌++◌, map, codes, IfOk, OnOk};
ghost use Rattle.std.specs.List.{join_by};
ghost use Rattle.wire_bodies.specs.Bodies.{rows_bytes};

use news_types::Memory;
use std::alloc::Global;

/// The object that tells the answers of a wire, `{"answer":"wire","rows":[..]}`: each row is the line of a member, without
/// its line feed.
///
/// # Errors
///
/// Want of memory.
#[tactic(auto, using(crate::proofs::Joined::joined_items))]
pub fn rows_text(alloc: Global, rows: &[Vec<u8>]) -> Result<Vec<u8>, Memory>
    ensures { IfOk result (λ text. text.items ≡ rows_bytes (map (λ row. row.items) rows.now)) }
{
    let mut text = Vec::new(alloc);
    text.extend_from_slice(b"{\"answer\":\"wire\",\"rows\":[")?;
    put_rows(&mut text, rows)?;
    text.extend_from_slice(b"]}")?;
    Ok(text)
}

/// Puts these rows behind what is there, with a comma between each two.
fn put_rows(text: &mut Vec<u8>, rows: &[Vec<u8>]) -> Result<(), Memory>
    ensures { OnOk result (text.new.items ≡ text.old.items ++ join_by (λ row. row.items) (codes ",") rows.now) }
{
    let [first, later @ ..] = rows else {
        return Ok(());
    };
    text.extend_from_slice(first)?;
    for row in later {
        text.push(b',')?;
        text.extend_from_slice(row)?;
    }
    Ok(())
}
