//! The names of attempts and receipts.

ghost use Rattle.std.specs.Prelude.{◌≡◌, ◌≤◌, ◌<◌, ◌+◌, ◌^◌, List, length, OnOk, IfOk};
ghost use Rattle.news_types.specs.Names.{Bytes, AreInOrder};
ghost use Rattle.entry_segments.specs.Segment.{with_name, with_names_of, names_of, place};
ghost use Rattle.entry_segments.specs.Reading.{precedes};
ghost use Rattle.entry_segments.specs.Answers.{name_before};
ghost use Rattle.entry_segments.specs.Packing.{names_size, has_room};
ghost use Rattle.entry_segments.specs.Told.{Admits};

use news_types::{Act, Entry, Name, Names};
use std::alloc::{AllocError, Global};

/// The names of the entries' attempts and receipts, each once, in byte order.
#[tactic(auto, using(crate::proofs::NameOrder::none_in_order))]
pub fn names_of(alloc: Global, entries: &[Entry]) -> Result<Names, AllocError>
    ensures { IfOk result (λ names. names ≡ names_of entries.now) }
{
    let mut names = Vec::new(alloc);
    for entry in entries {
        add_names_of(&mut names, &entry.act)?;
    }
    Ok(Names::of(names))
}

/// Puts the act's name among the names, where it has one.
pub fn add_names_of(names: &mut Vec<Name>, act: &Act) -> Result<(), AllocError>
    ensures { AreInOrder names.old.items → OnOk result (names.new.items ≡ with_names_of act.now names.old.items) }
{
    match act {
        Act::Attempt { subscriber, .. } => {
            add_name(names, subscriber)?;
            Ok(())
        }
        Act::Receipt { subscriber, .. } => {
            add_name(names, subscriber)?;
            Ok(())
        }
        _ => Ok(()),
    }
}

/// Puts a name in its place in byte order, where it is not yet there.
fn add_name(names: &mut Vec<Name>, name: &Name) -> Result<(), AllocError>
    ensures { AreInOrder names.old.items → OnOk result (names.new.items ≡ with_name name.now names.old.items) }
{
    match names.binary_search(name) {
        Ok(_) => Ok(()),
        Err(at) => {
            names.insert(at, *name)?;
            Ok(())
        }
    }
}

/// Puts a name in its place, where there is room for the names beside so many other bytes: the names' size then.
pub fn admit_name(
    names: &mut Vec<Name>,
    size: usize,
    named: usize,
    name: &Name,
) -> Result<Option<usize>, AllocError>
    requires up { AreInOrder names.old.items }
    requires few { length names.old.items ≤ 65535 }
    requires named { named ≡ names_size names.old.items }
    requires small { size + named ≤ 4194304 }
    ensures { IfOk result (Admits size (with_name name.now names.old.items) names.old.items names.new.items) }
{
    match names.binary_search(name) {
        Ok(_) => Ok(room_for(size, named, names.as_slice())),
        Err(at) => {
            let more = named + 1 + name_len(name);
            if !has_room(size, more, names.len() + 1) {
                return Ok(None);
            }
            names.insert(at, *name)?;
            Ok(Some(more))
        }
    }
}

/// The names' size, where there is room for them beside so many other bytes.
pub fn room_for(size: usize, named: usize, names: &[Name]) -> Option<usize>
    requires named { named ≡ names_size names.now }
    requires small { size + named ≤ 4194304 }
    ensures { Admits size names.now names.now names.now result }
{
    if has_room(size, named, names.len()) {
        Some(named)
    } else {
        None
    }
}

/// Whether so many bytes beside the names go into one segment, and the names' own.
fn has_room(size: usize, named: usize, count: usize) -> bool
    requires { size + named < 2 ^ 64 }
    ensures { (names : List Bytes) → named ≡ names_size names → count ≡ length names → result ≡ has_room size names }
{
    size + named <= 2097152 && count <= 65535
}

/// How long a name is.
fn name_len(name: &Name) -> usize
    ensures len { result ≡ length name.now }
    ensures few { result ≤ 32 }
{
    name.as_bytes().len()
}

/// How many names stand before this one: all of them where it is not there.
pub fn place_of(names: &[Name], name: &Name) -> usize
    requires { AreInOrder names.now }
    ensures place { result ≡ place name.now names.now }
    ensures within { result ≤ length names.now }
{
    match names.binary_search(name) {
        Ok(at) => at,
        Err(_) => names.len(),
    }
}

/// Whether the name comes behind the last one, where there is one.
pub fn follows(last: &Option<Name>, name: &Name) -> bool
    ensures { result ≡ precedes (name_before last.now) name.now }
{
    match last {
        None => name.as_bytes().len() > 0,
        Some(last) => precedes(last, name),
    }
}

/// Whether the first comes before the second.
fn precedes(first: &Name, second: &Name) -> bool
    ensures { result ≡ precedes first.now second.now }
{
    first < second
}
