//! What a provider last sent for each item.
ghost use Rattle.std.specs.Prelude.{◌≡◌, ◌<◌, ◌==◌, [], ℕ, IfOk, OnOk, Some, nat_eq, if◌then◌else◌};
ghost use Rattle.std.specs.HashMap.{get, spare};
ghost use Rattle.news_types.specs.History.{History};
ghost use Rattle.desk_views.specs.Wires.{last_wire};
ghost use Rattle.desk_records.specs.declared.wires.Wires.{Wires};
ghost use Rattle.desk_records.specs.Wires.{KeepsWires, IsForWires, HasWireRoom};

use desk_views::Wire;
use news_types::Memory;
use std::alloc::Global;
use std::collections::HashMap;

/// The last ingest that changed each item.
#[derive(Drop)]
pub struct Wires {
    pub(crate) wires: HashMap<u32, Wire>,
}

/// What a change does.
#[derive(Clone, Copy)]
pub(crate) enum WireStep {
    Set { item: u32, wire: Wire },
    Keep,
}

/// A change of the wires, with the memory for it taken. One that is dropped changes nothing.
#[derive(Drop)]
pub struct WireChange {
    pub(crate) step: WireStep,
}

impl WireChange {
    /// One that does nothing.
    pub fn nothing() -> WireChange
        ensures room { (t : Wires) → HasWireRoom t result }
        ensures change { (h g : History) → ((j : ℕ) → last_wire g j ≡ last_wire h j) → IsForWires result h g }
    {
        WireChange {
            step: WireStep::Keep,
        }
    }
}

impl Wires {
    /// With nothing in it.
    pub fn new(alloc: Global) -> Result<Wires, Memory>
        ensures { IfOk result (λ wires. KeepsWires wires []) }
    {
        Ok(Wires {
            wires: HashMap::new(alloc),
        })
    }

    /// The embargo and the status of the last ingest that changed the item, if a provider sent it. It takes no memory.
    pub fn wire(&self, item: u32) -> Option<Wire>
        ensures { (h : History) → KeepsWires self.now h → result ≡ last_wire h item }
    {
        self.wires.get(&item).copied()
    }

    /// Takes the memory for an ingest that makes or changes an item. The wires stay as they are, also where memory is wanting.
    pub fn prepare(&mut self, item: u32, wire: Wire) -> Result<WireChange, Memory>
        ensures stays { (h : History) → KeepsWires self.old h → KeepsWires self.new h }
        ensures room { IfOk result (λ change. HasWireRoom self.new change) }
        ensures change { IfOk result (λ change. (h g : History) → ((j : ℕ) → last_wire g j ≡ (if item == j then Some wire else last_wire h j)) → IsForWires change h g) }
    {
        reserve_one(&mut self.wires)?;
        Ok(WireChange {
            step: WireStep::Set { item, wire },
        })
    }

    /// Makes a change. It takes no memory. Nothing may have been committed since the change was prepared.
    pub fn commit(&mut self, change: WireChange)
        requires { HasWireRoom self.old change }
        ensures { (h g : History) → KeepsWires self.old h → IsForWires change h g → KeepsWires self.new g }
    {
        match change.step {
            WireStep::Set { item, wire } => put(&mut self.wires, item, wire),
            WireStep::Keep => {}
        }
    }
}

/// Takes the memory for one more item.
fn reserve_one(wires: &mut HashMap<u32, Wire>) -> Result<(), Memory>
    ensures same { (item : ℕ) → get nat_eq wires.new item ≡ get nat_eq wires.old item }
    ensures ok { OnOk result (0 < spare wires.new) }
{
    wires.reserve(1)?;
    Ok(())
}

/// Says what was sent for an item. It takes no memory.
fn put(wires: &mut HashMap<u32, Wire>, item: u32, wire: Wire)
    requires { 0 < spare wires.old }
    ensures { (other : ℕ) → get nat_eq wires.new other ≡ (if item == other then Some wire else get nat_eq wires.old other) }
{
    let _ = wires.insert(item, wire);
}
