//! Names in byte order.
ghost use Rattle.std.specs.Prelude.{◌≡◌, ◌<◌, ◌≤◌, false, true, length, slice_index_or, IfSome, MatchOption};
ghost use Rattle.std.specs.List.{insert};
ghost use Rattle.news_types.specs.Names.{Bytes, is_in, AreInOrder};

use news_types::Name;

/// Where a name is.
pub fn find(names: &[Name], name: &Name) -> Option<usize>
    ensures within { IfSome result (λ at. at < length names.now) }
    ensures found { AreInOrder names.now → MatchOption result (is_in name.now names.now ≡ false)
        (λ at. (at < length names.now) × ((d : Bytes) → slice_index_or names.now at d ≡ name.now)) }
{
    names.binary_search(name).ok()
}

/// Where a name belongs that is not there yet.
pub fn place_of(names: &[Name], name: &Name) -> Option<usize>
    ensures within { IfSome result (λ at. at ≤ length names.now) }
    ensures place { AreInOrder names.now → MatchOption result (is_in name.now names.now ≡ true) (λ at. AreInOrder (insert names.now at name.now)) }
{
    names.binary_search(name).err()
}
