//! Changes of the dues: their memory is taken first, and they are made later without any.
ghost use Rattle.std.specs.Prelude.{◌≡◌, ◌<◌, ◌+◌, List, IfOk, OnOk, Some, if◌then◌else◌, is_some, vec_len, vec_capacity};
ghost use Rattle.news_types.specs.declared.query.Due.{Due};
ghost use Rattle.std.specs.HashMap.{get, hash_map_len, spare};
ghost use Rattle.news_types.specs.Names.{Bytes, same};
ghost use Rattle.news_types.specs.History.{History};
ghost use Rattle.desk_records.specs.declared.dues.Dues.{Dues};
ghost use Rattle.desk_records.specs.Dues.{KeepsDues};
ghost use Rattle.desk_records.specs.DueSteps.{AddsSubscriber, Publishes, TakesBack, Withdraws, Stays, HasSlots, HasDueRoom, IsForDues};

use crate::dues::Dues;
use crate::fill::slots_for;
use crate::rows::{Row, take_back_all, withdraw_all};
use crate::slots::Slot;
use news_types::{Due, Memory, Moment, Name};
use std::collections::HashMap;

/// What a change does.
#[derive(Drop)]
pub(crate) enum Step {
    Add {
        name: Name,
    },
    Publish {
        slots: Vec<Slot>,
    },
    /// The publication, and what goes at the moment of those with these numbers.
    TakeBack {
        slots: Vec<Slot>,
        numbers: Vec<u32>,
        moment: Moment,
    },
    Withdraw {
        numbers: Vec<u32>,
    },
    Nothing,
}

/// A change of the dues, with the memory for it taken. One that is dropped changes nothing.
#[derive(Drop)]
pub struct DueChange {
    pub(crate) step: Step,
}

impl DueChange {
    /// One that does nothing.
    pub fn nothing() -> DueChange
        ensures room { (t : Dues) → HasDueRoom t result }
        ensures change { (h g : History) → Stays h g → IsForDues result h g }
    {
        DueChange {
            step: Step::Nothing,
        }
    }
}

impl Dues {
    /// Takes the memory for one more subscriber. The dues stay as they are, also where memory is wanting.
    pub fn prepare_subscriber(&mut self, name: Name) -> Result<DueChange, Memory>
        ensures stays { (h : History) → KeepsDues self.old h → KeepsDues self.new h }
        ensures room { IfOk result (λ change. HasDueRoom self.new change) }
        ensures change { IfOk result (λ change. (h g : History) → AddsSubscriber name h g → IsForDues change h g) }
    {
        reserve_one(&mut self.places)?;
        Ok(DueChange {
            step: Step::Add { name },
        })
    }

    /// Takes the memory for a first publication or a correction that is due to these. The dues stay as they are, also where
    /// memory is wanting.
    pub fn prepare_publication(&mut self, due: &[Due]) -> Result<DueChange, Memory>
        ensures stays { (h : History) → KeepsDues self.old h → KeepsDues self.new h }
        ensures room { IfOk result (λ change. HasDueRoom self.new change) }
        ensures change { IfOk result (λ change. (h g : History) → KeepsDues self.old h → Publishes due.now h g → IsForDues change h g) }
    {
        let slots = slots_for(self.alloc, &self.places, due)?;
        self.rows.reserve(1)?;
        Ok(DueChange {
            step: Step::Publish { slots },
        })
    }

    /// Takes the memory for a kill or a recall at the moment that is due to these, of the item with publications of these
    /// numbers. The dues stay as they are, also where memory is wanting.
    pub fn prepare_taking_back(
        &mut self,
        due: &[Due],
        numbers: &[u32],
        moment: Moment,
    ) -> Result<DueChange, Memory>
        ensures stays { (h : History) → KeepsDues self.old h → KeepsDues self.new h }
        ensures room { IfOk result (λ change. HasDueRoom self.new change) }
        ensures change { IfOk result (λ change. (h g : History) → KeepsDues self.old h → TakesBack due.now numbers.now moment h g → IsForDues change h g) }
    {
        let slots = slots_for(self.alloc, &self.places, due)?;
        let numbers = Vec::from_slice(self.alloc, numbers)?;
        self.rows.reserve(1)?;
        Ok(DueChange {
            step: Step::TakeBack {
                slots,
                numbers,
                moment,
            },
        })
    }

    /// Takes the memory for a deschedule of the item with publications of these numbers. The dues stay as they are, also where
    /// memory is wanting.
    pub fn prepare_withdrawal(&mut self, numbers: &[u32]) -> Result<DueChange, Memory>
        ensures stays { (h : History) → KeepsDues self.old h → KeepsDues self.new h }
        ensures room { IfOk result (λ change. HasDueRoom self.new change) }
        ensures change { IfOk result (λ change. (h g : History) → Withdraws numbers.now h g → IsForDues change h g) }
    {
        let numbers = Vec::from_slice(self.alloc, numbers)?;
        Ok(DueChange {
            step: Step::Withdraw { numbers },
        })
    }

    /// Makes a change. It takes no memory. Nothing may have been committed since the change was prepared.
    pub fn commit(&mut self, change: DueChange)
        requires { HasDueRoom self.old change }
        ensures { (h g : History) → KeepsDues self.old h → IsForDues change h g → KeepsDues self.new g }
    {
        let DueChange { step } = change;
        match step {
            Step::Add { name } => self.add(name),
            Step::Publish { slots } => self.publish(slots),
            Step::TakeBack {
                slots,
                numbers,
                moment,
            } => self.take_back(slots, &numbers, moment),
            Step::Withdraw { numbers } => self.withdraw(&numbers),
            Step::Nothing => {}
        }
    }

    /// Adds a subscriber.
    fn add(&mut self, name: Name)
        requires { 0 < spare self.old.places }
        ensures { (h g : History) → KeepsDues self.old h → AddsSubscriber name h g → KeepsDues self.new g }
    {
        put(&mut self.places, name);
    }

    /// Adds a publication.
    fn publish(&mut self, slots: Vec<Slot>)
        requires { vec_len self.old.rows < vec_capacity self.old.rows }
        ensures { (h g : History) (due : List Due) → KeepsDues self.old h → HasSlots slots.items due h → Publishes due h g → KeepsDues self.new g }
    {
        self.rows.push_reserved(Row {
            stands: true,
            slots,
        });
    }

    /// Adds a kill or a recall, and takes back what goes.
    fn take_back(&mut self, slots: Vec<Slot>, numbers: &[u32], moment: Moment)
        requires { vec_len self.old.rows < vec_capacity self.old.rows }
        ensures { (h g : History) (due : List Due) → KeepsDues self.old h → HasSlots slots.items due h → TakesBack due numbers.now moment h g → KeepsDues self.new g }
    {
        take_back_all(&mut self.rows, numbers, moment);
        self.rows.push_reserved(Row {
            stands: true,
            slots,
        });
    }

    /// Withdraws what goes.
    fn withdraw(&mut self, numbers: &[u32])
        ensures { (h g : History) → KeepsDues self.old h → Withdraws numbers.now h g → KeepsDues self.new g }
    {
        withdraw_all(&mut self.rows, numbers);
    }
}

/// Takes the memory for one more subscriber.
fn reserve_one(places: &mut HashMap<Name, usize>) -> Result<(), Memory>
    ensures same { (name : Bytes) → get same places.new name ≡ get same places.old name }
    ensures len { hash_map_len places.new ≡ hash_map_len places.old }
    ensures ok { OnOk result (0 < spare places.new) }
{
    places.reserve(1)?;
    Ok(())
}

/// Gives a subscriber the place behind the others. It takes no memory.
fn put(places: &mut HashMap<Name, usize>, name: Name)
    requires { 0 < spare places.old }
    ensures places { (other : Bytes) → get same places.new other ≡ (if same name other then Some (hash_map_len places.old) else get same places.old other) }
    ensures len { hash_map_len places.new ≡ hash_map_len places.old + (if is_some (get same places.old name) then 0 else 1) }
{
    let place = places.len();
    let _ = places.insert(name, place);
}
