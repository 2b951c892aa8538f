//! Whether a command on conditions, filters or blocks is allowed.
ghost use Rattle.std.specs.Prelude.{◌≡◌, ℕ, List, [], ◌∷◌, ◌++◌, Option, Some, None, MatchResult, OnOk, true, nat_lt, is_some, length};
ghost use Rattle.std.specs.List.{list_all};
ghost use Rattle.std.specs.HashMap.{get};
ghost use Rattle.news_types.specs.Names.{Bytes, same};
ghost use Rattle.news_types.specs.History.{History};
ghost use Rattle.news_types.specs.Conditions.{Condition};
ghost use Rattle.news_types.specs.Filters.{Filter};
ghost use Rattle.news_types.specs.declared.command.Command.TheVariants.{AddCondition, AddFilter, SetFilter};
ghost use Rattle.news_types.specs.declared.rules.Statement.{Statement};
ghost use Rattle.news_types.specs.declared.denial.Denial.TheVariants.{Limit};
ghost use Rattle.news_types.specs.Denial.{unless, first_missing};
ghost use Rattle.content_filters.specs.Keeps.{Keeps};
ghost use Rattle.content_filters.specs.Reasons.{is_filter_command, filter_operand, filter_denial, judge_denial, KeepsFacts, denial_by, absent_in, is_filter_or};
ghost use Rattle.content_filters.specs.Asked.{has_place, is_below, names_below, first_thing, unknown_in, new_filter_denial, statements_denial};

use crate::operands::{are_statements, is_condition};
use crate::places::place_of;
use crate::table::Filters;
use news_types::{Command, Denial, Field, Name, Op, Statement, Text, Thing};
use std::collections::HashMap;

/// How many conditions there may be.
const MOST_CONDITIONS: u32 = 4096;

/// How many filters there may be.
const MOST_FILTERS: u32 = 1024;

/// Why a command on conditions, filters or blocks is denied.
#[derive(Clone, Copy, PartialEq, Eq)]
pub struct FilterDenial {
    pub denial: Denial,
}

impl Filters {
    /// Denies a command that adds a condition or a filter, replaces a filter's statements or sets its block, by the
    /// first of these reasons: it names a condition or a filter that is not there; its name is taken; a statement
    /// names the filter itself or a newer one; an operand is wrong; the table is full. Every other command passes.
    /// It takes no memory.
    pub fn judge(&self, command: &Command) -> Result<(), FilterDenial>
        ensures facts { (h : History) → KeepsFacts self.now h
            → MatchResult result (λ _. judge_denial h command.now ≡ None) (λ e. judge_denial h command.now ≡ Some e.denial) }
        ensures list { (h : History) → KeepsFacts self.now h → is_filter_command command.now ≡ true
            → MatchResult result (λ _. denial_by h command.now ≡ None) (λ e. denial_by h command.now ≡ Some e.denial) }
        ensures operands { OnOk result (filter_operand command.now ≡ None) }
    {
        match self.first_denial(command) {
            None => Ok(()),
            Some(denial) => Err(FilterDenial { denial }),
        }
    }

    /// The first reason to deny the command.
    fn first_denial(&self, command: &Command) -> Option<Denial>
        ensures facts { (condition : Bytes → Option Condition) (count : ℕ) (fs : List Filter) → Keeps self.now condition count fs → result ≡ filter_denial condition count fs command.now }
        ensures operands { result ≡ None → filter_operand command.now ≡ None }
    {
        match command {
            Command::AddCondition {
                condition,
                field,
                op,
                values,
            } => self.condition_denial(condition, *field, *op, values.as_slice()),
            Command::AddFilter { filter, statements } => {
                self.filter_denial(filter, statements.as_slice())
            }
            Command::SetFilter { filter, statements } => {
                self.statements_denial(filter, statements.as_slice())
            }
            Command::SetBlock { filter, .. } => {
                Denial::unless_there(Thing::Filter, self.has_filter(filter))
            }
            _ => None,
        }
    }

    /// The first reason to deny a new condition.
    fn condition_denial(&self, name: &Name, field: Field, op: Op, values: &[Text]) -> Option<Denial>
        ensures facts { (condition : Bytes → Option Condition) (count : ℕ) (fs : List Filter) → Keeps self.now condition count fs
            → result ≡ filter_denial condition count fs (AddCondition name.now field op values.now) }
        ensures operands { result ≡ None → filter_operand (AddCondition name.now field op values.now) ≡ None }
    {
        if place_of(&self.condition_places, name).is_some() {
            return Some(Denial::NameTaken);
        }
        if !is_condition(field, op, values) {
            return Some(Denial::BadOperand);
        }
        Denial::unless_below(Thing::Condition, self.conditions.len(), MOST_CONDITIONS)
    }

    /// The first reason to deny a new filter.
    fn filter_denial(&self, filter: &Name, statements: &[Statement]) -> Option<Denial>
        ensures value { result ≡ new_filter_denial self.now filter.now statements.now }
        ensures operands { result ≡ None → filter_operand (AddFilter filter.now statements.now) ≡ None }
    {
        if let Some(denial) = self.unknown_in(filter, statements) {
            return Some(denial);
        }
        if place_of(&self.filter_places, filter).is_some() {
            return Some(Denial::NameTaken);
        }
        if !name_below(&self.filter_places, self.filters.len(), statements) {
            return Some(Denial::FilterOrder);
        }
        if !are_statements(statements) {
            return Some(Denial::BadOperand);
        }
        Denial::unless_below(Thing::Filter, self.filters.len(), MOST_FILTERS)
    }

    /// The first reason to deny a filter other statements.
    fn statements_denial(&self, filter: &Name, statements: &[Statement]) -> Option<Denial>
        ensures value { result ≡ statements_denial self.now (get same self.now.filter_places filter.now) filter.now statements.now }
        ensures operands { result ≡ None → filter_operand (SetFilter filter.now statements.now) ≡ None }
    {
        let Some(age) = place_of(&self.filter_places, filter) else {
            return Some(Denial::UnknownThing {
                thing: Thing::Filter,
            });
        };
        if let Some(denial) = self.unknown_in(filter, statements) {
            return Some(denial);
        }
        if !name_below(&self.filter_places, age, statements) {
            return Some(Denial::FilterOrder);
        }
        if !are_statements(statements) {
            return Some(Denial::BadOperand);
        }
        None
    }

    /// That the statements of a filter name something that is not there. The filter itself is not unknown.
    fn unknown_in(&self, filter: &Name, statements: &[Statement]) -> Option<Denial>
        ensures { result ≡ first_missing (unknown_in self.now filter.now statements.now) }
    {
        for statement in statements.iter() {
            if let Some(thing) = self.unknown_in_statement(filter, statement) {
                return Some(Denial::UnknownThing { thing });
            }
        }
        None
    }

    /// The first that the statement names and that is not there.
    fn unknown_in_statement(&self, filter: &Name, statement: &Statement) -> Option<Thing>
        ensures { result ≡ first_thing (absent_in (has_place self.now.condition_places) (is_filter_or (has_place self.now.filter_places) filter.now) statement.now) }
    {
        if !all_placed(&self.condition_places, statement.conditions.as_slice()) {
            return Some(Thing::Condition);
        }
        if !all_placed_or(&self.filter_places, filter, statement.filters.as_slice()) {
            return Some(Thing::Filter);
        }
        None
    }
}

/// Whether each of the names has a place.
fn all_placed(places: &HashMap<Name, usize>, names: &[Name]) -> bool
    ensures { result ≡ list_all (has_place places.now) names.now }
{
    names.iter().all(|name| place_of(places, name).is_some())
}

/// Whether each of the names has a place or is this one.
fn all_placed_or(places: &HashMap<Name, usize>, this: &Name, names: &[Name]) -> bool
    ensures { result ≡ list_all (is_filter_or (has_place places.now) this.now) names.now }
{
    names
        .iter()
        .all(|name| *name == *this || place_of(places, name).is_some())
}

/// Whether the statements name filters below a place alone.
fn name_below(places: &HashMap<Name, usize>, limit: usize, statements: &[Statement]) -> bool
    ensures { result ≡ names_below places.now limit statements.now }
{
    statements.iter().all(|statement| all_below(places, limit, statement.filters.as_slice()))
}

/// Whether each of the names has a place below the limit.
fn all_below(places: &HashMap<Name, usize>, limit: usize, names: &[Name]) -> bool
    ensures { result ≡ list_all (λ name. is_below (get same places.now name) limit) names.now }
{
    names.iter().all(|name| is_below(places, limit, name))
}

/// Whether the name has a place below the limit.
fn is_below(places: &HashMap<Name, usize>, limit: usize, name: &Name) -> bool
    ensures { result ≡ is_below (get same places.now name.now) limit }
{
    match place_of(places, name) {
        Some(place) => place < limit,
        None => false,
    }
}
