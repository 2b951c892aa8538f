//! The front of some entries that goes into one segment.

ghost use Rattle.std.specs.Prelude.{◌≡◌, ◌≤◌, ◌<◌, ◌+◌, ◌^◌, [], length, IfOk, OnOk};
ghost use Rattle.news_types.specs.declared.entry.Entry.{Entry};
ghost use Rattle.entry_segments.specs.Told.{Tells, told_size, told_names, Admits, IsFront, GoesIn};
ghost use Rattle.news_types.specs.Names.{AreInOrder};
ghost use Rattle.entry_segments.specs.Packing.{names_size};

use crate::names::{admit_name, room_for};
use crate::told::{Told, told_len, varint_len};
use news_types::{Moment, Name};
use std::alloc::{AllocError, Global};

/// The front of some entries that has gone into one segment so far.
#[derive(Drop)]
pub struct Front {
    /// How many entries it has.
    pub taken: usize,
    /// The names of its attempts and receipts.
    pub names: Vec<Name>,
    /// The bytes of the names.
    pub named: usize,
    /// All other bytes.
    pub size: usize,
    /// The moment of its last entry, or 0.
    pub moment: Moment,
}

impl Front {
    /// No entries.
    #[tactic(auto, using(crate::proofs::NameOrder::none_in_order))]
    pub fn new(alloc: Global) -> Front
        ensures front { IsFront result }
        ensures taken { result.taken ≡ 0 }
        ensures names { result.names.items ≡ [] }
        ensures size { result.size ≡ 14 }
        ensures moment { result.moment ≡ 0 }
    {
        Front {
            taken: 0,
            names: Vec::new(alloc),
            named: 0,
            size: 14,
            moment: 0,
        }
    }

    /// Takes one more entry in, of which this is told, where there is room for it.
    pub fn takes(&mut self, moment: Moment, told: &Told) -> Result<bool, AllocError>
        requires front { IsFront self.old }
        requires few { self.old.taken < 2 ^ 62 }
        requires in_time { self.old.moment ≤ moment }
        requires short { told_size told.now ≤ 2097084 }
        ensures front { OnOk result (IsFront self.new) }
        ensures goes_in { (e : Entry) → e.moment ≡ moment → Tells told.now e.act → IfOk result (GoesIn self.old self.new e) }
    {
        let size = self.size + varint_len(moment - self.moment) + 1 + told_len(told);
        match admit(&mut self.names, size, self.named, told)? {
            None => Ok(false),
            Some(named) => {
                self.taken += 1;
                self.named = named;
                self.size = size;
                self.moment = moment;
                Ok(true)
            }
        }
    }
}

/// Puts the name that is told among the names, where there is room beside so many other bytes: the names' size then.
fn admit(
    names: &mut Vec<Name>,
    size: usize,
    named: usize,
    told: &Told,
) -> Result<Option<usize>, AllocError>
    requires up { AreInOrder names.old.items }
    requires few { length names.old.items ≤ 65535 }
    requires named { named ≡ names_size names.old.items }
    requires small { size + named ≤ 4194304 }
    ensures { IfOk result (Admits size (told_names told.now names.old.items) names.old.items names.new.items) }
{
    match told {
        Told::Counted { name, .. } => admit_name(names, size, named, name),
        Told::Nothing => Ok(room_for(size, named, names.as_slice())),
        Told::Boxed { .. } => Ok(room_for(size, named, names.as_slice())),
    }
}
