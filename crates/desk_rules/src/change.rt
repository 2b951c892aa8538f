//! Changes of the table: their memory is taken first, and they are made later without any.
ghost use Rattle.std.specs.Prelude.{◌≡◌, ◌+◌, ◌<◌, ℕ, Bool, ◌∷◌, Some, None, IfOk, OnOk, Option, is_some, if◌then◌else◌, vec_len, vec_capacity};
ghost use Rattle.std.specs.HashMap.{get, hash_map_len, spare};
ghost use Rattle.news_types.specs.Names.{Bytes, same};
ghost use Rattle.news_types.specs.History.{History};
ghost use Rattle.news_types.specs.Items.{placed};
ghost use Rattle.news_types.specs.Publications.{effect};
ghost use Rattle.news_types.specs.declared.entry.Entry.{Entry};
ghost use Rattle.news_types.specs.declared.entry.Act.TheVariants.{Request, Ingest};
ghost use Rattle.news_types.specs.declared.command.Command.{Command};
ghost use Rattle.news_types.specs.declared.rules.Place.{Place};
ghost use Rattle.news_types.specs.declared.query.Holder.{Holder};
ghost use Rattle.news_types.specs.declared.story.Incoming.{Incoming};
ghost use Rattle.desk_rules.specs.declared.on_desk.OnDesk.{OnDesk};
ghost use Rattle.desk_rules.specs.declared.step.Step.TheVariants as step;
ghost use Rattle.desk_rules.specs.Keys.{same_on};
ghost use Rattle.desk_rules.specs.Spots.{Spot, changed};
ghost use Rattle.desk_rules.specs.Places.{HasRoomFor as HasPlacesFor};
ghost use Rattle.desk_rules.specs.Facts.{Facts, facts};
ghost use Rattle.desk_rules.specs.Keeps.{Keeps, KeepsFacts};
ghost use Rattle.desk_rules.specs.Asked.{knows_denial};
ghost use Rattle.desk_rules.specs.Steps.{leads, Fits, IsFor, IsMaking, IsThereIfGiven, IsAlike, HasRoomFor, HasRoom};

use crate::on_desk::OnDesk;
use crate::places::{incoming, working};
use crate::seats::{Seat, hold, put};
use crate::step::{Step, make, step_of};
use crate::table::Desks;
use news_types::{Command, Holder, Memory, Name, Place, Privileges};
use std::collections::HashMap;

/// A change of the table, with the memory for it taken. One that is dropped changes nothing.
#[derive(Drop)]
pub struct DeskChange {
    pub(crate) step: Step,
}

impl Desks {
    /// Takes the memory for a command of the caller that `knows` allows. Users, desks and items stay as they are,
    /// also where memory is wanting. A command on other things makes a change that does nothing.
    pub fn prepare(&mut self, caller: &Name, command: &Command) -> Result<DeskChange, Memory>
        ensures stays { (h : History) → KeepsFacts self.old h → KeepsFacts self.new h }
        ensures room { IfOk result (λ change. HasRoom self.new change) }
        ensures change { (h : History) → knows_denial h command.now ≡ None → IfOk result (λ change. IsFor change caller.now command.now h) }
    {
        let step = step_of(caller, command);
        self.reserve(&step)?;
        Ok(DeskChange { step })
    }

    /// Takes the memory for an item that comes in, at a place that is there or at none. Users, desks and items stay
    /// as they are, also where memory is wanting.
    pub fn prepare_item(&mut self, place: Option<Place>) -> Result<DeskChange, Memory>
        ensures stays { (h : History) → KeepsFacts self.old h → KeepsFacts self.new h }
        ensures room { IfOk result (λ change. HasRoom self.new change) }
        ensures change { (h : History) → IsThereIfGiven (facts h) place → IfOk result (λ change. IsMaking change place h) }
    {
        let step = make(place);
        self.reserve(&step)?;
        Ok(DeskChange { step })
    }

    /// Makes a change. It takes no memory. Nothing may have been committed since the change was prepared.
    pub fn commit(&mut self, change: DeskChange)
        requires { HasRoom self.old change }
        ensures request { (h : History) (e : Entry) (caller : Bytes) (number : ℕ) (command : Command) → KeepsFacts self.old h → IsFor change caller command h
            → e.act ≡ Request caller number command → KeepsFacts self.new (e ∷ h) }
        ensures ingest { (h : History) (e : Entry) (name : Bytes) (come : Incoming) (place : Option Place) (published : Bool) → KeepsFacts self.old h → IsMaking change place h
            → e.act ≡ Ingest name come → effect h name come e.moment ≡ placed place published → KeepsFacts self.new (e ∷ h) }
    {
        let DeskChange { step } = change;
        self.apply(step);
    }

    /// Takes the memory for a step. Stages have numbers of 32 bits, and there is room for no more of them.
    fn reserve(&mut self, step: &Step) -> Result<(), Memory>
        ensures alike { IsAlike self.old self.new }
        ensures room { OnOk result (HasRoomFor self.new step.now) }
    {
        match step {
            Step::AddUser { .. } | Step::SetUser { .. } => self.reserve_user(),
            Step::AddDesk { .. } => self.reserve_desk(),
            Step::AddStage { place } => self.reserve_stage(place),
            Step::SetMember { .. } => self.reserve_member(),
            Step::Make { .. } | Step::MakeAlone => self.reserve_item(),
            Step::Put { .. } | Step::Hold { .. } | Step::Free { .. } | Step::Nothing => Ok(()),
        }
    }

    /// Takes the memory for one more user.
    fn reserve_user(&mut self) -> Result<(), Memory>
        ensures alike { IsAlike self.old self.new }
        ensures room { OnOk result (0 < spare self.new.users) }
    {
        self.users.reserve(1)?;
        Ok(())
    }

    /// Takes the memory for one more desk, with its two stages.
    fn reserve_desk(&mut self) -> Result<(), Memory>
        ensures alike { IsAlike self.old self.new }
        ensures desks { OnOk result (0 < spare self.new.desks) }
        ensures places { OnOk result (HasPlacesFor 2 self.new.places) }
    {
        self.desks.reserve(1)?;
        self.places.reserve()
    }

    /// Takes the memory for one more stage.
    fn reserve_stage(&mut self, place: &Place) -> Result<(), Memory>
        ensures alike { IsAlike self.old self.new }
        ensures room { OnOk result (HasRoomFor self.new (step.AddStage place.now)) }
    {
        if self.stage_count(&place.desk) == u32::MAX {
            return Err(Memory);
        }
        self.reserve_desk()
    }

    /// Takes the memory for one more member.
    fn reserve_member(&mut self) -> Result<(), Memory>
        ensures alike { IsAlike self.old self.new }
        ensures room { OnOk result (0 < spare self.new.members) }
    {
        self.members.reserve(1)?;
        Ok(())
    }

    /// Takes the memory for one more item.
    fn reserve_item(&mut self) -> Result<(), Memory>
        ensures alike { IsAlike self.old self.new }
        ensures room { OnOk result (vec_len self.new.seats < vec_capacity self.new.seats) }
    {
        self.seats.reserve(1)?;
        Ok(())
    }

    /// Makes a step. It takes no memory.
    fn apply(&mut self, step: Step)
        requires { HasRoomFor self.old step }
        ensures { (f : Facts) → Keeps self.old f → Fits step f → Keeps self.new (leads step f) }
    {
        match step {
            Step::AddUser { user, privileges } => put_user(&mut self.users, user, privileges),
            Step::SetUser { user, privileges } => put_user(&mut self.users, user, privileges),
            Step::AddDesk { desk } => self.add_desk(desk),
            Step::AddStage { place } => self.add_stage(place),
            Step::SetMember { desk, user, member } => {
                put_member(&mut self.members, OnDesk { desk, name: user }, member)
            }
            Step::Make { place } => self.make(place),
            Step::MakeAlone => self.make_alone(),
            Step::Put { item, place } => self.put(item, place),
            Step::Hold { item, holder } => self.hold(item, Some(holder)),
            Step::Free { item } => self.hold(item, None),
            Step::Nothing => {}
        }
    }

    /// Adds a desk with its two stages.
    fn add_desk(&mut self, desk: Name)
        requires { HasRoomFor self.old (step.AddDesk desk) }
        ensures { (f : Facts) → Keeps self.old f → Fits (step.AddDesk desk) f → Keeps self.new (leads (step.AddDesk desk) f) }
    {
        put_count(&mut self.desks, desk, 2);
        self.places.add(Place {
            desk,
            stage: incoming(),
        });
        self.places.add(Place {
            desk,
            stage: working(),
        });
    }

    /// Adds a stage to a desk.
    fn add_stage(&mut self, place: Place)
        requires { HasRoomFor self.old (step.AddStage place) }
        ensures { (f : Facts) → Keeps self.old f → Fits (step.AddStage place) f → Keeps self.new (leads (step.AddStage place) f) }
    {
        let count = self.stage_count(&place.desk);
        put_count(&mut self.desks, place.desk, count + 1);
        self.places.add(place);
    }

    /// Makes the next item at a place. Nobody holds it.
    fn make(&mut self, place: Place)
        requires { HasRoomFor self.old (step.Make place) }
        ensures { (f : Facts) → Keeps self.old f → Fits (step.Make place) f → Keeps self.new (leads (step.Make place) f) }
    {
        let place = self.places.number(&place);
        self.seats.push_reserved(Seat {
            place,
            holder: None,
        });
    }

    /// Makes the next item on no desk. Nobody holds it.
    fn make_alone(&mut self)
        requires { HasRoomFor self.old step.MakeAlone }
        ensures { (f : Facts) → Keeps self.old f → Keeps self.new (leads step.MakeAlone f) }
    {
        self.seats.push_reserved(Seat {
            place: None,
            holder: None,
        });
    }

    /// Says who holds an item.
    fn hold(&mut self, item: u32, holder: Option<Holder>)
        ensures { (f : Facts) → Keeps self.old f → Keeps self.new (record f { spots = changed item (λ (s : Spot). record s { holder = holder }) f.spots }) }
    {
        hold(&mut self.seats, item, holder);
    }

    /// Puts an item at a place.
    fn put(&mut self, item: u32, place: Place)
        ensures { (f : Facts) → Keeps self.old f → Fits (step.Put item place) f → Keeps self.new (leads (step.Put item place) f) }
    {
        if let Some(number) = self.places.number(&place) {
            put(&mut self.seats, item, number);
        }
    }
}

/// Says what the user may do. It takes no memory.
fn put_user(users: &mut HashMap<Name, Privileges>, user: Name, privileges: Privileges)
    requires { 0 < spare users.old }
    ensures users { (name : Bytes) → get same users.new name ≡ (if same user name then Some privileges else get same users.old name) }
    ensures len { hash_map_len users.new ≡ hash_map_len users.old + (if is_some (get same users.old user) then 0 else 1) }
{
    let _ = users.insert(user, privileges);
}

/// Says how many stages the desk has. It takes no memory.
fn put_count(desks: &mut HashMap<Name, u32>, desk: Name, count: u32)
    requires { 0 < spare desks.old }
    ensures desks { (name : Bytes) → get same desks.new name ≡ (if same desk name then Some count else get same desks.old name) }
    ensures len { hash_map_len desks.new ≡ hash_map_len desks.old + (if is_some (get same desks.old desk) then 0 else 1) }
{
    let _ = desks.insert(desk, count);
}

/// Says whether the user is a member of the desk. It takes no memory.
fn put_member(members: &mut HashMap<OnDesk, bool>, key: OnDesk, member: bool)
    requires { 0 < spare members.old }
    ensures { (other : OnDesk) → get same_on members.new other ≡ (if same_on key other then Some member else get same_on members.old other) }
{
    let _ = members.insert(key, member);
}
