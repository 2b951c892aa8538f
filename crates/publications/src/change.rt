//! Changes of the table: their memory is taken first, and they are made later without any.
ghost use Rattle.std.specs.Prelude.{◌≡◌, ◌<◌, ◌++◌, [], ◌∷◌, ℕ, List, Some, None, IfOk, OnOk, if◌then◌else◌, nat_eq, vec_len, vec_capacity};
ghost use Rattle.std.specs.HashMap.{get, spare};
ghost use Rattle.news_types.specs.Due.{Pub};
ghost use Rattle.publications.specs.declared.change.Step.TheVariants as step;
ghost use Rattle.publications.specs.Keeps.{Keeps};
ghost use Rattle.publications.specs.Numbers.{HasPlace};
ghost use Rattle.publications.specs.Steps.{HasRoom, IsFor, Publishes, Withdraws};

use crate::numbers::{add_number, reserve_number};
use crate::table::{OfItem, Publications, Published};
use news_types::Memory;
use std::collections::HashMap;

/// What a change does.
#[derive(Drop)]
pub(crate) enum Step {
    /// The publication of that number, and what stands of its item with it.
    Publish {
        number: u32,
        row: Published,
        of: OfItem,
    },
    Withdraw {
        item: u32,
    },
    Nothing,
}

/// A change of the table, with the memory for it taken. One that is dropped changes nothing.
#[derive(Drop)]
pub struct PublicationChange {
    pub(crate) step: Step,
}

impl PublicationChange {
    /// One that does nothing.
    pub fn nothing() -> PublicationChange
        ensures { result.step ≡ step.Nothing }
    {
        PublicationChange {
            step: Step::Nothing,
        }
    }

    /// One that withdraws what stands of an item, which waits.
    pub fn withdraw(item: u32) -> PublicationChange
        ensures { result.step ≡ step.Withdraw item }
    {
        PublicationChange {
            step: Step::Withdraw { item },
        }
    }
}

impl Publications {
    /// Takes the memory for a first publication. The publications stay as they are, also where memory is wanting.
    pub fn prepare(&mut self, row: Published, of: OfItem) -> Result<PublicationChange, Memory>
        ensures stays { (ps st : List Pub) → Keeps self.old ps st → Keeps self.new ps st }
        ensures room { IfOk result (λ change. HasRoom self.new change) }
        ensures change { IfOk result (λ change. change.step ≡ step.Publish of.number row of) }
    {
        self.prepare_numbered(of.number, row, of)
    }

    /// Takes the memory for one more publication, of that number.
    pub(crate) fn prepare_numbered(
        &mut self,
        number: u32,
        row: Published,
        of: OfItem,
    ) -> Result<PublicationChange, Memory>
        ensures stays { (ps st : List Pub) → Keeps self.old ps st → Keeps self.new ps st }
        ensures room { IfOk result (λ change. HasRoom self.new change) }
        ensures change { IfOk result (λ change. change.step ≡ step.Publish number row of) }
    {
        self.rows.reserve(1)?;
        reserve_one(&mut self.firsts)?;
        reserve_number(&mut self.numbers, self.alloc, row.item)?;
        Ok(PublicationChange {
            step: Step::Publish { number, row, of },
        })
    }

    /// Makes a change. It takes no memory. Nothing may have been committed since the change was prepared.
    pub fn commit(&mut self, change: PublicationChange)
        requires { HasRoom self.old change }
        ensures { (ps st after_ps after_st : List Pub) → Keeps self.old ps st → IsFor change ps st after_ps after_st → Keeps self.new after_ps after_st }
    {
        let PublicationChange { step } = change;
        match step {
            Step::Publish { number, row, of } => self.publish(number, row, of),
            Step::Withdraw { item } => self.withdraw(item),
            Step::Nothing => {}
        }
    }

    /// Adds a publication.
    fn publish(&mut self, number: u32, row: Published, of: OfItem)
        requires rows { vec_len self.old.rows < vec_capacity self.old.rows }
        requires firsts { 0 < spare self.old.firsts }
        requires place { HasPlace self.old.numbers row.item }
        ensures { (ps st after_ps after_st : List Pub) → Keeps self.old ps st → Publishes number row of ps st after_ps after_st → Keeps self.new after_ps after_st }
    {
        add_number(&mut self.numbers, row.item, number);
        put(&mut self.firsts, row.item, of);
        self.rows.push_reserved(row);
    }

    /// Withdraws what stands of an item.
    fn withdraw(&mut self, item: u32)
        ensures { (ps st after_ps after_st : List Pub) → Keeps self.old ps st → Withdraws item ps st after_ps after_st → Keeps self.new after_ps after_st }
    {
        take(&mut self.firsts, item);
    }
}

/// Takes the memory for one more item.
fn reserve_one(firsts: &mut HashMap<u32, OfItem>) -> Result<(), Memory>
    ensures same { (item : ℕ) → get nat_eq firsts.new item ≡ get nat_eq firsts.old item }
    ensures ok { OnOk result (0 < spare firsts.new) }
{
    firsts.reserve(1)?;
    Ok(())
}

/// Says what stands of an item. It takes no memory.
fn put(firsts: &mut HashMap<u32, OfItem>, item: u32, of: OfItem)
    requires { 0 < spare firsts.old }
    ensures { (other : ℕ) → get nat_eq firsts.new other ≡ (if nat_eq item other then Some of else get nat_eq firsts.old other) }
{
    drop(firsts.insert(item, of));
}

/// Says that nothing stands of an item.
fn take(firsts: &mut HashMap<u32, OfItem>, item: u32)
    ensures { (other : ℕ) → get nat_eq firsts.new other ≡ (if nat_eq item other then None else get nat_eq firsts.old other) }
{
    drop(firsts.remove(&item));
}
