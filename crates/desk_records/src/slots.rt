//! What is kept of a publication for one subscriber.
ghost use Rattle.std.specs.Prelude.{◌≡◌, map};
ghost use Rattle.desk_records.specs.Slots.{after_due, after_kill, changed_at};

use news_types::Moment;

/// What a publication was made due to a subscriber by, and what became of that.
#[derive(Clone, Copy)]
pub(crate) enum Slot {
    NotDue,
    Due { release: Moment },
    TakenBack { release: Moment },
}

/// A publication costs no more bytes than these for each subscriber.
const _: () = prove!(size_of::<Slot>() <= 16);

impl Slot {
    /// Behind one that is due with that release: the first counts.
    pub(crate) fn due(self, release: Moment) -> Slot
        ensures { result ≡ after_due release self }
    {
        match self {
            Slot::NotDue => Slot::Due { release },
            _ => self,
        }
    }

    /// Behind a kill or a recall at the moment.
    pub(crate) fn taken_back(self, moment: Moment) -> Slot
        ensures { result ≡ after_kill moment self }
    {
        match self {
            Slot::Due { release } if moment < release => Slot::TakenBack { release },
            _ => self,
        }
    }
}

/// Says that it is due at a place. It takes no memory.
pub(crate) fn put(slots: &mut Vec<Slot>, place: usize, release: Moment)
    ensures { slots.new.items ≡ changed_at place (after_due release) slots.old.items }
{
    if let Some(slot) = slots.get_mut(place) {
        *slot = slot.due(release);
    }
}

/// Takes back what is not released by the moment.
pub(crate) fn take_back(slots: &mut Vec<Slot>, moment: Moment)
    ensures { slots.new.items ≡ map (after_kill moment) slots.old.items }
{
    for slot in slots.iter_mut() {
        *slot = slot.taken_back(moment);
    }
}
