//! Where items stand and who holds them.
ghost use Rattle.std.specs.Prelude.{◌≡◌, Option, Some, None};
ghost use Rattle.desk_rules.specs.declared.seats.Seat.{Seat};
ghost use Rattle.desk_rules.specs.Spots.{numbered, changed, number_at, holder_at};

use news_types::Holder;

/// What is kept of an item: the number of its place, and who holds it.
#[derive(Clone, Copy)]
pub(crate) struct Seat {
    pub(crate) place: Option<u32>,
    pub(crate) holder: Option<Holder>,
}

/// An item costs no more bytes than these.
const _: () = prove!(size_of::<Seat>() <= 80);

/// What is kept of the item of that number.
pub(crate) fn seat_of(seats: &[Seat], item: u32) -> Option<Seat>
    ensures { result ≡ numbered seats.now item }
{
    if item == 0 {
        return None;
    }
    seats.get(item as usize - 1).copied()
}

/// The number of the place of an item of which this is kept.
pub(crate) fn number_of(seat: Option<Seat>) -> Option<u32>
    ensures { result ≡ number_at seat }
{
    match seat {
        Some(seat) => seat.place,
        None => None,
    }
}

/// Who holds an item of which this is kept.
pub(crate) fn holder_of(seat: Option<Seat>) -> Option<Holder>
    ensures { result ≡ holder_at seat }
{
    seat?.holder
}

/// Gives the item the place of that number.
pub(crate) fn put(seats: &mut Vec<Seat>, item: u32, place: u32)
    ensures { seats.new.items ≡ changed item (λ (s : Seat). record s { place = Some place }) seats.old.items }
{
    if item == 0 {
        return;
    }
    if let Some(seat) = seats.get_mut(item as usize - 1) {
        seat.place = Some(place);
    }
}

/// Says who holds the item.
pub(crate) fn hold(seats: &mut Vec<Seat>, item: u32, holder: Option<Holder>)
    ensures { seats.new.items ≡ changed item (λ (s : Seat). record s { holder = holder }) seats.old.items }
{
    if item == 0 {
        return;
    }
    if let Some(seat) = seats.get_mut(item as usize - 1) {
        seat.holder = holder;
    }
}
