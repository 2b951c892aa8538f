//! Names in byte order, each but once.
ghost use Rattle.std.specs.Prelude.{◌≡◌, ◌+◌, ◌<◌, false, ◌||◌, vec_len, vec_capacity};
ghost use Rattle.news_types.specs.Names.{Bytes, same, is_in, AreInOrder};

use crate::name::Name;

/// Puts a name in its place among names in byte order, where it is not there. It takes no memory.
pub fn insert_in_order(names: &mut Vec<Name>, name: Name)
    requires { vec_len names.old < vec_capacity names.old }
    ensures order { AreInOrder names.old.items → AreInOrder names.new.items }
    ensures each { AreInOrder names.old.items → (other : Bytes) → is_in other names.new.items ≡ (same other name || is_in other names.old.items) }
    ensures len { AreInOrder names.old.items → is_in name names.old.items ≡ false → vec_len names.new ≡ vec_len names.old + 1 }
{
    if let Err(place) = names.binary_search(&name) {
        let _ = names.insert(place, name);
    }
}
