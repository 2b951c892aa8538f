//! Changes of the table: their memory is taken first, and they are made later without any.
ghost use Rattle.std.specs.Prelude.{◌≡◌, ◌+◌, ◌<◌, ℕ, List, ◌∷◌, Option, Some, None, IfOk, IsTrue, OnOk, map, filter, not, true, false, if◌then◌else◌, length, slice_set, slice_index_or, vec_len, vec_capacity};
ghost use Rattle.std.specs.HashMap.{spare};
ghost use Rattle.news_types.specs.Names.{Bytes, same};
ghost use Rattle.news_types.specs.History.{History};
ghost use Rattle.news_types.specs.Conditions.{Condition, is_condition};
ghost use Rattle.news_types.specs.Filters.{Filter, changed, has_filter};
ghost use Rattle.news_types.specs.declared.entry.Entry.{Entry};
ghost use Rattle.news_types.specs.declared.entry.Act.TheVariants.{Request};
ghost use Rattle.news_types.specs.declared.command.Command.{Command};
ghost use Rattle.news_types.specs.declared.command.Command.TheVariants.{AddCondition, AddFilter, SetFilter, SetBlock};
ghost use Rattle.content_filters.specs.declared.table.KeptFilter.{KeptFilter};
ghost use Rattle.content_filters.specs.Kept.{condition_of};
ghost use Rattle.content_filters.specs.Keeps.{Keeps};
ghost use Rattle.content_filters.specs.Reasons.{filter_operand, judge_denial, KeepsFacts};
ghost use Rattle.content_filters.specs.Changes.{IsAlike, IsFor, IsStep, HasRoom, HasRoomFor};

use crate::condition::KeptCondition;
use crate::places::{place_of, put_place, reserve_place};
use crate::table::{Filters, KeptFilter};
use news_types::{Command, Field, Memory, Name, Op, Statements, Texts, insert_in_order};

/// What a change does.
#[derive(Drop)]
pub(crate) enum Step {
    AddCondition {
        name: Name,
        condition: KeptCondition,
    },
    AddFilter {
        filter: KeptFilter,
    },
    SetStatements {
        filter: Name,
        statements: Statements,
    },
    SetBlock {
        filter: Name,
        on: bool,
    },
    Nothing,
}

/// A change of the table, with the memory for it taken. One that is dropped changes nothing.
#[derive(Drop)]
pub struct FilterChange {
    pub(crate) step: Step,
}

impl Filters {
    /// Takes the memory for a command that `judge` allows. The conditions, filters and blocks stay as they are, also
    /// where memory is wanting. A command on other things makes a change that does nothing.
    pub fn prepare(&mut self, command: &Command) -> Result<FilterChange, Memory>
        requires { filter_operand command.now ≡ None }
        ensures stays { (h : History) → KeepsFacts self.old h → KeepsFacts self.new h }
        ensures room { IfOk result (λ change. HasRoom self.new change) }
        ensures change { (h : History) → judge_denial h command.now ≡ None → IfOk result (λ change. IsFor change command.now h) }
    {
        let step = self.prepare_step(command)?;
        Ok(FilterChange { step })
    }

    /// Makes a change. It takes no memory. Nothing may have been committed since the change was prepared.
    pub fn commit(&mut self, change: FilterChange)
        requires { HasRoom self.old change }
        ensures { (h : History) (e : Entry) (caller : Bytes) (number : ℕ) (command : Command) → KeepsFacts self.old h → IsFor change command h
            → e.act ≡ Request caller number command → KeepsFacts self.new (e ∷ h) }
    {
        let FilterChange { step } = change;
        match step {
            Step::AddCondition { name, condition } => self.add_condition(name, condition),
            Step::AddFilter { filter } => self.add_filter(filter),
            Step::SetStatements { filter, statements } => self.set_statements(&filter, statements),
            Step::SetBlock { filter, on } => self.set_block(filter, on),
            Step::Nothing => {}
        }
    }

    /// Takes the memory for a command, and copies what is kept of it.
    fn prepare_step(&mut self, command: &Command) -> Result<Step, Memory>
        requires { filter_operand command.now ≡ None }
        ensures alike { IsAlike self.old self.new }
        ensures room { IfOk result (HasRoomFor self.new) }
        ensures step { IfOk result (λ step. IsStep step command.now) }
    {
        match command {
            Command::AddCondition {
                condition,
                field,
                op,
                values,
            } => self.prepare_condition(*condition, *field, *op, values),
            Command::AddFilter { filter, statements } => self.prepare_filter(*filter, statements),
            Command::SetFilter { filter, statements } => Ok(Step::SetStatements {
                filter: *filter,
                statements: statements.copy()?,
            }),
            Command::SetBlock { filter, on } => self.prepare_block(*filter, *on),
            _ => Ok(Step::Nothing),
        }
    }

    /// Takes the memory for one more condition.
    fn prepare_condition(
        &mut self,
        name: Name,
        field: Field,
        op: Op,
        values: &Texts,
    ) -> Result<Step, Memory>
        requires { IsTrue (is_condition field op values.now) }
        ensures alike { IsAlike self.old self.new }
        ensures room { IfOk result (HasRoomFor self.new) }
        ensures step { IfOk result (λ step. IsStep step (AddCondition name field op values.now)) }
    {
        let condition = KeptCondition::new(self.alloc, field, op, values)?;
        self.conditions.reserve(1)?;
        reserve_place(&mut self.condition_places)?;
        Ok(Step::AddCondition { name, condition })
    }

    /// Takes the memory for one more filter.
    fn prepare_filter(&mut self, name: Name, statements: &Statements) -> Result<Step, Memory>
        ensures alike { IsAlike self.old self.new }
        ensures room { IfOk result (HasRoomFor self.new) }
        ensures step { IfOk result (λ step. IsStep step (AddFilter name statements.now)) }
    {
        let statements = statements.copy()?;
        self.filters.reserve(1)?;
        reserve_place(&mut self.filter_places)?;
        Ok(Step::AddFilter {
            filter: KeptFilter { name, statements },
        })
    }

    /// Takes the memory for one more block.
    fn prepare_block(&mut self, filter: Name, on: bool) -> Result<Step, Memory>
        ensures alike { IsAlike self.old self.new }
        ensures room { IfOk result (HasRoomFor self.new) }
        ensures step { IfOk result (λ step. IsStep step (SetBlock filter on)) }
    {
        self.blocks.reserve(1)?;
        Ok(Step::SetBlock { filter, on })
    }

    /// Adds a condition.
    fn add_condition(&mut self, name: Name, condition: KeptCondition)
        requires conditions { vec_len self.old.conditions < vec_capacity self.old.conditions }
        requires places { 0 < spare self.old.condition_places }
        ensures { (found : Bytes → Option Condition) (count : ℕ) (fs : List Filter) → Keeps self.old found count fs
            → Keeps self.new (λ other. if same name other then Some (condition_of condition) else found other) (count + 1) fs }
    {
        let place = self.conditions.len();
        self.conditions.push_reserved(condition);
        put_place(&mut self.condition_places, name, place);
    }

    /// Adds a filter.
    fn add_filter(&mut self, filter: KeptFilter)
        requires filters { vec_len self.old.filters < vec_capacity self.old.filters }
        requires places { 0 < spare self.old.filter_places }
        ensures { (found : Bytes → Option Condition) (count : ℕ) (fs : List Filter) → Keeps self.old found count fs → has_filter filter.name fs ≡ false → length fs < 1024
            → Keeps self.new found count (record { name = filter.name; statements = filter.statements; blocks = false } ∷ fs) }
    {
        let place = self.filters.len();
        let name = filter.name;
        self.filters.push_reserved(filter);
        put_place(&mut self.filter_places, name, place);
    }

    /// Gives a filter other statements.
    fn set_statements(&mut self, filter: &Name, statements: Statements)
        ensures { (found : Bytes → Option Condition) (count : ℕ) (fs : List Filter) → Keeps self.old found count fs → has_filter filter.now fs ≡ true
            → Keeps self.new found count (map (changed filter.now (λ f. record f { statements = statements })) fs) }
    {
        if let Some(place) = place_of(&self.filter_places, filter) {
            replace_statements(&mut self.filters, place, statements);
        }
    }

    /// Makes a filter a global block, or no block.
    fn set_block(&mut self, filter: Name, on: bool)
        requires { vec_len self.old.blocks < vec_capacity self.old.blocks }
        ensures { (found : Bytes → Option Condition) (count : ℕ) (fs : List Filter) → Keeps self.old found count fs → has_filter filter fs ≡ true
            → Keeps self.new found count (map (changed filter (λ f. record f { blocks = on })) fs) }
    {
        if on {
            insert_in_order(&mut self.blocks, filter);
        } else {
            remove_name(&mut self.blocks, &filter);
        }
    }
}

/// Takes a name out, if it is there.
fn remove_name(names: &mut Vec<Name>, name: &Name)
    ensures { names.new.items ≡ filter (λ other. not (same other name.now)) names.old.items }
{
    names.retain(|other| *other != *name);
}

/// Gives the filter at a place other statements.
fn replace_statements(filters: &mut Vec<KeptFilter>, place: usize, statements: Statements)
    ensures { (d : KeptFilter) → place < vec_len filters.old
        → filters.new.items ≡ slice_set filters.old.items place (record { name = (slice_index_or filters.old.items place d).name; statements = statements }) }
{
    if let Some(filter) = filters.get_mut(place) {
        filter.statements = statements;
    }
}
