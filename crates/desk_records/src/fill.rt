//! The slots of a publication that is made.
ghost use Rattle.std.specs.Prelude.{◌≡◌, ℕ, IfOk, List, length, vec_len};
ghost use Rattle.std.specs.HashMap.{get, hash_map_len};
ghost use Rattle.news_types.specs.Names.{Bytes, same};
ghost use Rattle.news_types.specs.Due.{release_to};
ghost use Rattle.desk_records.specs.Slots.{slot_at};
ghost use Rattle.desk_records.specs.Dues.{IsPlaces, place_of};
ghost use Rattle.desk_records.specs.Fills.{Fills, known_slot, marked};

use crate::slots::{Slot, put};
use news_types::{Due, Memory, Moment, Name};
use std::alloc::Global;
use std::collections::HashMap;

/// The slots of a publication that is due to these, of subscribers with these places.
pub(crate) fn slots_for(
    alloc: Global,
    places: &HashMap<Name, usize>,
    due: &[Due],
) -> Result<Vec<Slot>, Memory>
    ensures len { IfOk result (λ slots. length slots.items ≡ hash_map_len places.now) }
    ensures slots { IfOk result (λ slots. (names : List Bytes) → IsPlaces places.now names → Fills slots.items due.now names) }
{
    let mut slots = vec![in alloc; Slot::NotDue; places.len()]?;
    for one in due {
        mark(
            &mut slots,
            places.get(&one.subscriber).copied(),
            one.release,
        );
    }
    Ok(slots)
}

/// Says that it is due at a place, if there is one.
fn mark(slots: &mut Vec<Slot>, place: Option<usize>, release: Moment)
    ensures { slots.new.items ≡ marked place release slots.old.items }
{
    if let Some(place) = place {
        put(slots, place, release);
    }
}
