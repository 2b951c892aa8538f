//! Names, each with its place in the order of adding.
ghost use Rattle.std.specs.Prelude.{◌≡◌, ◌+◌, ◌<◌, ◌^◌, ℕ, OnOk, Some, if◌then◌else◌};
ghost use Rattle.std.specs.HashMap.{get, spare};
ghost use Rattle.news_types.specs.Names.{Bytes, same};
ghost use Rattle.content_filters.specs.Kept.{verdict_at};

use news_types::{Memory, Name};
use std::collections::HashMap;

/// The place of the name.
pub(crate) fn place_of(places: &HashMap<Name, usize>, name: &Name) -> Option<usize>
    ensures { result ≡ get same places.now name.now }
{
    places.get(name).copied()
}

/// The number of what stands at a place, from 1, if it fits.
pub(crate) fn number_at(place: usize) -> Option<u32>
    ensures { place + 1 < 2 ^ 32 → result ≡ Some (place + 1) }
{
    u32::try_from(place).ok()?.checked_add(1)
}

/// Takes the memory for one more name.
pub(crate) fn reserve_place(places: &mut HashMap<Name, usize>) -> Result<(), Memory>
    ensures same { (name : Bytes) → get same places.new name ≡ get same places.old name }
    ensures ok { OnOk result (0 < spare places.new) }
{
    places.reserve(1)?;
    Ok(())
}

/// Gives a name its place. It takes no memory.
pub(crate) fn put_place(places: &mut HashMap<Name, usize>, name: Name, place: usize)
    requires { 0 < spare places.old }
    ensures { (other : Bytes) → get same places.new other ≡ (if same name other then Some place else get same places.old other) }
{
    let _ = places.insert(name, place);
}

/// The verdict at the place of the name; where there is none it is no.
pub(crate) fn verdict_at(places: &HashMap<Name, usize>, verdicts: &[bool], name: &Name) -> bool
    ensures { result ≡ verdict_at places.now verdicts.now name.now }
{
    match place_of(places, name) {
        Some(place) => verdicts.get(place).copied().unwrap_or(false),
        None => false,
    }
}
