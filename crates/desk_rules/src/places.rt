//! Stages, each with the number of its place.
ghost use Rattle.std.specs.Prelude.{◌≡◌, ◌+◌, ◌<◌, ◌≤◌, ℕ, [], ◌∷◌, ◌++◌, Some, OnOk, slice_get, if◌then◌else◌, vec_len, vec_capacity, codes};
ghost use Rattle.std.specs.HashMap.{get, spare};
ghost use Rattle.news_types.specs.Desks.{incoming, working};
ghost use Rattle.desk_rules.specs.Keys.{same_on};
ghost use Rattle.desk_rules.specs.declared.on_desk.OnDesk.{OnDesk};
ghost use Rattle.desk_rules.specs.Places.{key_of, IsEmpty, ArePlaced, HasRoomFor};

use crate::on_desk::OnDesk;
use news_types::{Memory, Name, Place};
use std::alloc::Global;
use std::collections::HashMap;

/// The stage where items that come to a desk stand.
pub(crate) fn incoming() -> Name
    ensures { result ≡ incoming }
{
    match Name::read("incoming") {
        Some(name) => name,
        None => unreachable!(),
    }
}

/// The stage where items that are made on a desk stand.
pub(crate) fn working() -> Name
    ensures { result ≡ working }
{
    match Name::read("working") {
        Some(name) => name,
        None => unreachable!(),
    }
}

/// The stage, as a name on its desk.
pub(crate) fn key_of(place: &Place) -> OnDesk
    ensures { result ≡ key_of place.now }
{
    OnDesk {
        desk: place.desk,
        name: place.stage,
    }
}

/// Stages, in the order of their adding, and the number of each, from 0.
#[derive(Drop)]
pub(crate) struct Places {
    pub(crate) list: Vec<Place>,
    pub(crate) numbers: HashMap<OnDesk, u32>,
}

impl Places {
    /// Without a place.
    pub(crate) fn new(alloc: Global) -> Places
        ensures { IsEmpty result }
    {
        Places {
            list: Vec::new(alloc),
            numbers: HashMap::new(alloc),
        }
    }

    /// The number of the place, if it is there.
    pub(crate) fn number(&self, place: &Place) -> Option<u32>
        ensures { result ≡ get same_on self.now.numbers (key_of place.now) }
    {
        self.numbers.get(&key_of(place)).copied()
    }

    /// The place of that number, if there is one.
    pub(crate) fn at(&self, number: u32) -> Option<Place>
        ensures { result ≡ slice_get self.now.list.items number }
    {
        self.list.get(number as usize).copied()
    }

    /// Takes the memory for two more. There are numbers for 2^32 places, and none for more.
    pub(crate) fn reserve(&mut self) -> Result<(), Memory>
        ensures list { self.new.list.items ≡ self.old.list.items }
        ensures numbers { (key : OnDesk) → get same_on self.new.numbers key ≡ get same_on self.old.numbers key }
        ensures ok { OnOk result (HasRoomFor 2 self.new) }
    {
        if self.list.len() >= u32::MAX as usize {
            return Err(Memory);
        }
        self.list.reserve(2)?;
        self.numbers.reserve(2)?;
        Ok(())
    }

    /// Adds a place. It takes no memory.
    pub(crate) fn add(&mut self, place: Place)
        requires { HasRoomFor 1 self.old }
        ensures list { self.new.list.items ≡ self.old.list.items ++ place ∷ [] }
        ensures numbers { (key : OnDesk) → get same_on self.new.numbers key ≡ (if same_on (key_of place) key then Some (vec_len self.old.list) else get same_on self.old.numbers key) }
        ensures placed { ArePlaced self.old → ArePlaced self.new }
        ensures room { HasRoomFor 2 self.old → HasRoomFor 1 self.new }
    {
        let number = self.list.len() as u32;
        self.list.push_reserved(place);
        put_number(&mut self.numbers, key_of(&place), number);
    }
}

/// Gives a name its number. It takes no memory.
fn put_number(numbers: &mut HashMap<OnDesk, u32>, key: OnDesk, number: u32)
    requires { 0 < spare numbers.old }
    ensures numbers { (other : OnDesk) → get same_on numbers.new other ≡ (if same_on key other then Some number else get same_on numbers.old other) }
    ensures spare { spare numbers.old ≤ spare numbers.new + 1 }
{
    let _ = numbers.insert(key, number);
}
