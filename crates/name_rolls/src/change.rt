//! Changes of the rolls: their memory is taken first, and they are made later without any.
ghost use Rattle.std.specs.Prelude.{◌≡◌, ◌∷◌, ◌<◌, [], ℕ, false, List, Some, IfOk, OnOk, if◌then◌else◌};
ghost use Rattle.std.specs.HashMap.{get, spare};
ghost use Rattle.news_types.specs.Names.{Bytes, same};
ghost use Rattle.news_types.specs.History.{History};
ghost use Rattle.news_types.specs.Answers.{in_order};
ghost use Rattle.news_types.specs.Desks.{incoming, working};
ghost use Rattle.news_types.specs.declared.entry.Entry.{Entry};
ghost use Rattle.news_types.specs.declared.entry.Act.TheVariants.{Request};
ghost use Rattle.news_types.specs.declared.command.Command.{Command};
ghost use Rattle.news_types.specs.declared.command.Command.TheVariants as command;
ghost use Rattle.desk_views.specs.declared.question.Register.TheVariants as register;
ghost use Rattle.name_rolls.specs.Rolls.{roll_of, names_at, HasPlaceAt, HasPlace};
ghost use Rattle.name_rolls.specs.Keeps.{KeepsRolls, IsAlike};
ghost use Rattle.name_rolls.specs.Steps.{added, changes_stages, Finds, IsStep, IsFor, HasRoomFor, HasRoom};

use crate::roll::Roll;
use crate::rolls::Rolls;
use desk_views::Register;
use news_types::{Command, Memory, Name};
use std::alloc::Global;
use std::collections::HashMap;

/// The name of a new thing of a kind.
#[derive(Clone, Copy)]
pub(crate) struct NewName {
    pub(crate) of: Register,
    pub(crate) name: Name,
}

/// What a change does.
#[derive(Drop)]
pub(crate) enum Step {
    Add { added: NewName },
    AddDesk { desk: Name, stages: Roll },
    AddStage { desk: Name, stage: Name },
    Nothing,
}

/// A change of the rolls, with the memory for it taken. One that is dropped changes nothing.
#[derive(Drop)]
pub struct RollChange {
    pub(crate) step: Step,
}

impl Rolls {
    /// Takes the memory for a command. All stays as it is, also where memory is wanting. A command that adds nothing makes
    /// a change that does nothing.
    pub fn prepare(&mut self, command: &Command) -> Result<RollChange, Memory>
        ensures stays { (h : History) → KeepsRolls self.old h → KeepsRolls self.new h }
        ensures room { IfOk result (λ change. HasRoom self.new change) }
        ensures change { (h : History) → Finds command.now h → IfOk result (λ change. IsFor change command.now h) }
    {
        let step = self.step(command)?;
        Ok(RollChange { step })
    }

    /// Makes a change. It takes no memory. Nothing may have been committed since the change was prepared.
    pub fn commit(&mut self, change: RollChange)
        requires { HasRoom self.old change }
        ensures { (h : History) (e : Entry) (caller : Bytes) (number : ℕ) (command : Command) → KeepsRolls self.old h → IsFor change command h
            → e.act ≡ Request caller number command → KeepsRolls self.new (e ∷ h) }
    {
        let RollChange { step } = change;
        match step {
            Step::Add { added } => self.put(added.of, added.name),
            Step::AddDesk { desk, stages } => {
                self.put(Register::Desks, desk);
                put_stages(&mut self.stages, desk, stages);
            }
            Step::AddStage { desk, stage } => put_stage(&mut self.stages, &desk, stage),
            Step::Nothing => {}
        }
    }

    /// What a command does, with the memory for it taken.
    fn step(&mut self, command: &Command) -> Result<Step, Memory>
        ensures alike { IsAlike self.old self.new }
        ensures room { IfOk result (HasRoomFor self.new) }
        ensures step { IfOk result (λ step. IsStep step command.now) }
    {
        match command {
            Command::AddDesk { desk } => self.step_of_desk(*desk),
            Command::AddStage { desk, stage } => self.step_of_stage(*desk, *stage),
            _ => self.step_of_name(command),
        }
    }

    /// Takes the memory for one more desk, with its two stages.
    fn step_of_desk(&mut self, desk: Name) -> Result<Step, Memory>
        ensures alike { IsAlike self.old self.new }
        ensures room { IfOk result (HasRoomFor self.new) }
        ensures step { IfOk result (λ step. IsStep step (command.AddDesk desk)) }
    {
        let stages = first_stages(self.alloc)?;
        self.reserve(Register::Desks)?;
        reserve_stages(&mut self.stages)?;
        Ok(Step::AddDesk { desk, stages })
    }

    /// Takes the memory for one more stage of a desk.
    fn step_of_stage(&mut self, desk: Name, stage: Name) -> Result<Step, Memory>
        ensures alike { IsAlike self.old self.new }
        ensures room { IfOk result (HasRoomFor self.new) }
        ensures step { IfOk result (λ step. IsStep step (command.AddStage desk stage)) }
    {
        reserve_stage(&mut self.stages, &desk)?;
        Ok(Step::AddStage { desk, stage })
    }

    /// Takes the memory for what a command adds, if it adds something.
    fn step_of_name(&mut self, command: &Command) -> Result<Step, Memory>
        requires { changes_stages command.now ≡ false }
        ensures alike { IsAlike self.old self.new }
        ensures room { IfOk result (HasRoomFor self.new) }
        ensures step { IfOk result (λ step. IsStep step command.now) }
    {
        let Some(added) = added(command) else {
            return Ok(Step::Nothing);
        };
        self.reserve(added.of)?;
        Ok(Step::Add { added })
    }
}

/// What a command adds beside a desk.
fn added(command: &Command) -> Option<NewName>
    ensures { result ≡ added command.now }
{
    let (of, name) = match command {
        Command::AddUser { user, .. } => (Register::Users, *user),
        Command::AddCondition { condition, .. } => (Register::Conditions, *condition),
        Command::AddFilter { filter, .. } => (Register::Filters, *filter),
        Command::AddProduct { product, .. } => (Register::Products, *product),
        Command::AddSubscriber { subscriber, .. } => (Register::Subscribers, *subscriber),
        Command::AddScheme { scheme, .. } => (Register::Schemes, *scheme),
        Command::AddProvider { provider, .. } => (Register::Providers, *provider),
        _ => return None,
    };
    Some(NewName { of, name })
}

/// The stage where items that come to a desk stand.
fn incoming() -> Name
    ensures { result ≡ incoming }
{
    match Name::read("incoming") {
        Some(name) => name,
        None => unreachable!(),
    }
}

/// The stage where items that are made on a desk stand.
fn working() -> Name
    ensures { result ≡ working }
{
    match Name::read("working") {
        Some(name) => name,
        None => unreachable!(),
    }
}

/// The stages that every desk has from its start.
fn first_stages(alloc: Global) -> Result<Roll, Memory>
    ensures { IfOk result (λ roll. roll.names.items ≡ in_order (incoming ∷ working ∷ [])) }
{
    let mut roll = Roll::new(alloc);
    roll.reserve()?;
    roll.put(working());
    roll.reserve()?;
    roll.put(incoming());
    Ok(roll)
}

/// Takes the memory for the stages of one more desk.
fn reserve_stages(stages: &mut HashMap<Name, Roll>) -> Result<(), Memory>
    ensures alike { (other : Bytes) → get same stages.new other ≡ get same stages.old other }
    ensures room { OnOk result (0 < spare stages.new) }
{
    stages.reserve(1)?;
    Ok(())
}

/// Takes the memory for one more stage of a desk that is there.
fn reserve_stage(stages: &mut HashMap<Name, Roll>, desk: &Name) -> Result<(), Memory>
    ensures alike { (other : Bytes) → names_at stages.new other ≡ names_at stages.old other }
    ensures room { OnOk result (HasPlaceAt stages.new desk.now) }
{
    if let Some(roll) = stages.get_mut(desk) {
        roll.reserve()?;
    }
    Ok(())
}

/// Gives a desk its first stages. It takes no memory.
fn put_stages(stages: &mut HashMap<Name, Roll>, desk: Name, first: Roll)
    requires { 0 < spare stages.old }
    ensures { (other : Bytes) → get same stages.new other ≡ (if same desk other then Some first else get same stages.old other) }
{
    drop(stages.insert(desk, first));
}

/// Gives a desk that is there one more stage. It takes no memory.
fn put_stage(stages: &mut HashMap<Name, Roll>, desk: &Name, stage: Name)
    requires { HasPlaceAt stages.old desk.now }
    ensures one { (names : List Bytes) → names_at stages.old desk.now ≡ Some (in_order names) → names_at stages.new desk.now ≡ Some (in_order (stage ∷ names)) }
    ensures others { (other : Bytes) → same desk.now other ≡ false → names_at stages.new other ≡ names_at stages.old other }
{
    if let Some(roll) = stages.get_mut(desk) {
        roll.put(stage);
    }
}
