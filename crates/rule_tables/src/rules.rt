//! The tables, and their changes.
ghost use Rattle.std.specs.Prelude.{◌≡◌, ◌∷◌, [], ℕ, IfOk, None};
ghost use Rattle.news_types.specs.Names.{Bytes};
ghost use Rattle.news_types.specs.History.{History};
ghost use Rattle.news_types.specs.Denial.{operand_denial};
ghost use Rattle.news_types.specs.declared.entry.Entry.{Entry};
ghost use Rattle.news_types.specs.declared.entry.Act.TheVariants.{Request};
ghost use Rattle.news_types.specs.declared.command.Command.{Command};
ghost use Rattle.rule_tables.specs.Keeps.{KeepsRules};
ghost use Rattle.rule_tables.specs.Asked.{IsAllowed};
ghost use Rattle.rule_tables.specs.Steps.{HasRoom, IsFor};

use crate::sources::{SourceChange, Sources};
use content_filters::{FilterChange, Filters};
use desk_rules::{DeskChange, Desks};
use name_rolls::{RollChange, Rolls};
use news_types::{Command, Memory, Name};
use products::{ProductChange, Products};
use std::alloc::Global;

/// Users and desks, filters, products and subscribers, schemes and providers, and the names of all of them in order.
#[derive(Drop)]
pub struct Rules {
    pub(crate) desks: Desks,
    pub(crate) filters: Filters,
    pub(crate) products: Products,
    pub(crate) sources: Sources,
    pub(crate) rolls: Rolls,
}

/// A change by a command, with the memory for it taken. One that is dropped changes nothing.
#[derive(Drop)]
pub struct RuleChange {
    pub(crate) desks: DeskChange,
    pub(crate) filters: FilterChange,
    pub(crate) products: ProductChange,
    pub(crate) sources: SourceChange,
    pub(crate) rolls: RollChange,
}

impl Rules {
    /// With what the empty list has.
    pub fn new(alloc: Global) -> Result<Rules, Memory>
        ensures { IfOk result (λ rules. KeepsRules rules []) }
    {
        Ok(Rules {
            desks: Desks::new(alloc)?,
            filters: Filters::new(alloc)?,
            products: Products::new(alloc)?,
            sources: Sources::new(alloc),
            rolls: Rolls::new(alloc)?,
        })
    }

    /// Takes the memory for a command that is allowed. All stays as it is, also where memory is wanting.
    pub fn prepare(&mut self, caller: &Name, command: &Command) -> Result<RuleChange, Memory>
        requires { operand_denial command.now ≡ None }
        ensures stays { (h : History) → KeepsRules self.old h → KeepsRules self.new h }
        ensures room { IfOk result (λ change. HasRoom self.new change) }
        ensures change { (h : History) → KeepsRules self.old h → IsAllowed h command.now → IfOk result (λ change. IsFor change caller.now command.now h) }
    {
        let desks = self.desks.prepare(caller, command)?;
        let filters = self.filters.prepare(command)?;
        let products = self.products.prepare(command)?;
        let sources = self.sources.prepare(command)?;
        let rolls = self.rolls.prepare(command)?;
        Ok(RuleChange {
            desks,
            filters,
            products,
            sources,
            rolls,
        })
    }

    /// Makes a change. It takes no memory. Nothing may have been committed since the change was prepared.
    pub fn commit(&mut self, change: RuleChange)
        requires { HasRoom self.old change }
        ensures { (h : History) (m : ℕ) (caller : Bytes) (number : ℕ) (command : Command) → KeepsRules self.old h → IsFor change caller command h
            → KeepsRules self.new (record { moment = m; act = Request caller number command } ∷ h) }
    {
        let RuleChange {
            desks,
            filters,
            products,
            sources,
            rolls,
        } = change;
        self.desks.commit(desks);
        self.filters.commit(filters);
        self.products.commit(products);
        self.sources.commit(sources);
        self.rolls.commit(rolls);
    }
}
