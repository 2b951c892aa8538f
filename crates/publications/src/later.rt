//! Publications that follow an item's first: corrections, and what takes back.
ghost use Rattle.std.specs.Prelude.{◌≡◌, ◌∷◌, List, IfOk, OnOk, true, not, if◌then◌else◌};
ghost use Rattle.std.specs.HashSet.{contains};
ghost use Rattle.news_types.specs.Names.{Bytes, same};
ghost use Rattle.news_types.specs.Due.{Pub, given_by, taken_back};
ghost use Rattle.publications.specs.Keeps.{Keeps, shown, first_of};
ghost use Rattle.publications.specs.Later.{Knows, put_new, with_new, Corrects, TakesBack};
ghost use Rattle.publications.specs.Steps.{HasRoom, IsFor};

use crate::change::PublicationChange;
use crate::table::{OfItem, Publications, Published};
use news_types::{Due, Memory, Moment, Name};
use std::alloc::Global;
use std::collections::HashSet;

impl Publications {
    /// Takes the memory for a correction of that number, which is due to these. The publications stay as they are, also where
    /// memory is wanting.
    pub fn prepare_correction(
        &mut self,
        number: u32,
        row: Published,
        due: &[Due],
    ) -> Result<PublicationChange, Memory>
        ensures stays { (ps st : List Pub) → Keeps self.old ps st → Keeps self.new ps st }
        ensures room { IfOk result (λ change. HasRoom self.new change) }
        ensures change { (ps st : List Pub) (p : Pub) → Keeps self.old ps st → row ≡ shown p → number ≡ p.number → Corrects p due.now st
            → IfOk result (λ change. IsFor change ps st (p ∷ ps) (p ∷ st)) }
    {
        let Some(before) = self.firsts.get(&row.item) else {
            return Ok(PublicationChange::nothing());
        };
        let of = corrected(self.alloc, before, due)?;
        self.prepare_numbered(number, row, of)
    }

    /// Takes the memory for a publication of that number, due to these, which takes back what stands of its item and is not
    /// released by then: a kill or a recall. The publications stay as they are, also where memory is wanting.
    pub fn prepare_taking_back(
        &mut self,
        number: u32,
        row: Published,
        due: &[Due],
    ) -> Result<PublicationChange, Memory>
        ensures stays { (ps st : List Pub) → Keeps self.old ps st → Keeps self.new ps st }
        ensures room { IfOk result (λ change. HasRoom self.new change) }
        ensures change { (ps st : List Pub) (p : Pub) → Keeps self.old ps st → row ≡ shown p → number ≡ p.number → TakesBack p due.now st
            → IfOk result (λ change. IsFor change ps st (p ∷ ps) (p ∷ taken_back p.release p.item st)) }
    {
        let Some(before) = self.firsts.get(&row.item) else {
            return Ok(PublicationChange::nothing());
        };
        let of = taken_back(self.alloc, before, due, row.release)?;
        self.prepare_numbered(number, row, of)
    }
}

/// What stands of an item with a correction that is due to these.
fn corrected(alloc: Global, before: &OfItem, due: &[Due]) -> Result<OfItem, Memory>
    ensures { IfOk result (λ of. (first_of of ≡ first_of before.now) × (of.soonest.items ≡ with_new before.now.soonest.items due.now) × (of.newest.items ≡ due.now)) }
{
    Ok(OfItem {
        number: before.number,
        release: before.release,
        targets: before.targets.copy()?,
        soonest: with_new(alloc, &before.soonest, due)?,
        newest: Vec::from_slice(alloc, due)?,
    })
}

/// What stands of an item with what takes it back at the moment, and is due to these.
fn taken_back(alloc: Global, before: &OfItem, due: &[Due], moment: Moment) -> Result<OfItem, Memory>
    ensures { IfOk result (λ of. (first_of of ≡ first_of before.now) × (of.soonest.items ≡ given_by moment before.now.soonest.items) × (of.newest.items ≡ due.now)) }
{
    Ok(OfItem {
        number: before.number,
        release: before.release,
        targets: before.targets.copy()?,
        soonest: given_by(alloc, &before.soonest, moment)?,
        newest: Vec::from_slice(alloc, due)?,
    })
}

/// Those whose release has come by the moment.
fn given_by(alloc: Global, due: &[Due], moment: Moment) -> Result<Vec<Due>, Memory>
    ensures { IfOk result (λ given. given.items ≡ given_by moment due.now) }
{
    let given = due
        .iter()
        .filter(|one| one.release <= moment)
        .copied()
        .collect(alloc)?;
    Ok(given)
}

/// These, and of the others the first for each subscriber who is not among them.
fn with_new(alloc: Global, before: &[Due], due: &[Due]) -> Result<Vec<Due>, Memory>
    ensures { IfOk result (λ all. all.items ≡ with_new before.now due.now) }
{
    let mut known = subscribers_of(alloc, before)?;
    let mut all = Vec::from_slice(alloc, before)?;
    for one in due {
        put_new(&mut all, &mut known, *one)?;
    }
    Ok(all)
}

/// Puts one behind these, unless something is due to its subscriber already, whom the set then knows.
fn put_new(all: &mut Vec<Due>, known: &mut HashSet<Name>, one: Due) -> Result<(), Memory>
    requires { Knows known.old all.old.items }
    ensures puts { OnOk result (all.new.items ≡ put_new all.old.items one) }
    ensures knows { OnOk result (Knows known.new all.new.items) }
{
    if insert(known, one.subscriber)? {
        all.push(one)?;
    }
    Ok(())
}

/// Those to whom something is due.
fn subscribers_of(alloc: Global, due: &[Due]) -> Result<HashSet<Name>, Memory>
    ensures { IfOk result (λ known. Knows known due.now) }
{
    let mut known = HashSet::new(alloc);
    for one in due {
        let _ = insert(&mut known, one.subscriber)?;
    }
    Ok(known)
}

/// Has the set know the subscriber, and tells whether it did not.
fn insert(known: &mut HashSet<Name>, subscriber: Name) -> Result<bool, Memory>
    ensures new { IfOk result (λ new. new ≡ not (contains same known.old subscriber)) }
    ensures knows { OnOk result ((s : Bytes) → contains same known.new s ≡ (if same subscriber s then true else contains same known.old s)) }
{
    let new = known.insert(subscriber)?;
    Ok(new)
}
