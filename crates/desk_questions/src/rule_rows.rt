//! What is told of conditions, filters and schemes.
ghost use Rattle.std.specs.Prelude.{◌≡◌, IfOk, map};
ghost use Rattle.news_types.specs.History.{History};
ghost use Rattle.news_types.specs.Conditions.{condition};
ghost use Rattle.news_types.specs.Filters.{filters};
ghost use Rattle.news_types.specs.Routing.{scheme};
ghost use Rattle.desk_views.specs.Things.{filter_age, is_block};
ghost use Rattle.content_filters.specs.Kept.{condition_of, filter_named};
ghost use Rattle.rule_tables.specs.Keeps.{KeepsRules};
ghost use Rattle.told_objects.specs.Members.{objects};
ghost use Rattle.told_objects.specs.Seen.{seen};
ghost use Rattle.desk_questions.specs.Rows.{condition_members, condition_row, statement_row, filter_members, filter_row, place_members, fetched, rule_row, scheme_members, scheme_row};

use crate::rows::named;
use crate::words::{day_words, word_of_field, word_of_op};
use content_filters::KeptCondition;
use news_types::{Memory, Name, Place, Rule, Statement};
use rule_tables::Rules;
use std::alloc::{AllocError, Global};
use told_objects::Object;

/// A condition, if it is there.
pub(crate) fn condition_row(alloc: Global, rules: &Rules, name: &Name) -> Result<Object, Memory>
    ensures { IfOk result (λ told. (h : History) → KeepsRules rules.now h
        → seen told ≡ condition_row name.now (condition h name.now)) }
{
    let Some(kept) = rules.condition(name) else {
        return Ok(Object::new(alloc));
    };
    let row = condition_object(alloc, name, kept)?;
    Ok(row)
}

#[tactic(auto, unfolding(crate::specs::Rows::condition_members))]
fn condition_object(alloc: Global, name: &Name, kept: &KeptCondition) -> Result<Object, AllocError>
    ensures { IfOk result (λ told. seen told ≡ condition_members name.now (condition_of kept.now)) }
{
    Object::new(alloc)
        .text("condition", name.as_str())?
        .text("field", word_of_field(kept.field()))?
        .text("op", word_of_op(kept.op()))?
        .texts("values", kept.values())
}

/// A filter with its age, and whether it blocks for all, if it is there.
pub(crate) fn filter_row(alloc: Global, rules: &Rules, name: &Name) -> Result<Object, Memory>
    ensures { IfOk result (λ told. (h : History) → KeepsRules rules.now h
        → seen told ≡ filter_row name.now (filter_age h name.now) (is_block h name.now) (filter_named name.now (filters h))) }
{
    let Some(kept) = rules.filter(name) else {
        return Ok(Object::new(alloc));
    };
    let age = rules.filter_age(name).unwrap_or(0);
    let blocks = rules.is_block(name);
    let rows = statement_rows(alloc, kept.statements())?;
    let row = filter_object(alloc, name, age, blocks, rows)?;
    Ok(row)
}

#[tactic(auto, unfolding(crate::specs::Rows::filter_members))]
fn filter_object(
    alloc: Global,
    name: &Name,
    age: u32,
    blocks: bool,
    statements: Vec<Object>,
) -> Result<Object, AllocError>
    ensures { IfOk result (λ told. seen told ≡ filter_members name.now age blocks (objects seen statements.items)) }
{
    Object::new(alloc)
        .number("age", u64::from(age))?
        .flag("block", blocks)?
        .text("filter", name.as_str())?
        .rows("statements", statements)
}

/// Statements, in order.
fn statement_rows(alloc: Global, statements: &[Statement]) -> Result<Vec<Object>, AllocError>
    ensures { IfOk result (λ rows. map seen rows.items ≡ map statement_row statements.now) }
{
    let mut rows = Vec::new(alloc);
    for statement in statements {
        rows.push(statement_object(alloc, statement)?)?;
    }
    Ok(rows)
}

#[tactic(auto, unfolding(crate::specs::Rows::statement_row))]
fn statement_object(alloc: Global, statement: &Statement) -> Result<Object, AllocError>
    ensures { IfOk result (λ told. seen told ≡ statement_row statement.now) }
{
    Object::new(alloc)
        .texts("conditions", statement.conditions.as_slice())?
        .texts("filters", statement.filters.as_slice())
}

/// A scheme, if it is there.
pub(crate) fn scheme_row(alloc: Global, rules: &Rules, name: &Name) -> Result<Object, Memory>
    ensures { IfOk result (λ told. (h : History) → KeepsRules rules.now h
        → seen told ≡ scheme_row name.now (scheme h name.now)) }
{
    let Some(list) = rules.scheme(name) else {
        return Ok(Object::new(alloc));
    };
    let rows = rule_rows(alloc, list)?;
    let row = scheme_object(alloc, name, rows)?;
    Ok(row)
}

#[tactic(auto, unfolding(crate::specs::Rows::scheme_members))]
fn scheme_object(alloc: Global, name: &Name, rules: Vec<Object>) -> Result<Object, AllocError>
    ensures { IfOk result (λ told. seen told ≡ scheme_members name.now (objects seen rules.items)) }
{
    Object::new(alloc)
        .rows("rules", rules)?
        .text("scheme", name.as_str())
}

/// Rules, in order.
fn rule_rows(alloc: Global, rules: &[Rule]) -> Result<Vec<Object>, Memory>
    ensures { IfOk result (λ rows. map seen rows.items ≡ map rule_row rules.now) }
{
    let mut rows = Vec::new(alloc);
    for rule in rules {
        rows.push(rule_object(alloc, rule)?)?;
    }
    Ok(rows)
}

#[tactic(auto, unfolding(crate::specs::Rows::rule_row))]
fn rule_object(alloc: Global, rule: &Rule) -> Result<Object, Memory>
    ensures { IfOk result (λ told. seen told ≡ rule_row rule.now) }
{
    let days = day_words(alloc, rule.days)?;
    let told = Object::new(alloc)
        .texts("days", days.as_slice())?
        .flag("exit", rule.exit)?;
    let told = named(fetched(alloc, told, &rule.fetch)?, "filter", &rule.filter)?
        .number("from", u64::from(rule.from))?
        .flag("publish", rule.publish)?
        .number("to", u64::from(rule.to))?
        .text("zone", rule.zone.as_str())?;
    Ok(told)
}

/// The object with where a rule fetches to, null where it fetches nothing.
#[tactic(auto, unfolding(crate::specs::Rows::fetched))]
fn fetched(alloc: Global, told: Object, place: &Option<Place>) -> Result<Object, AllocError>
    ensures { IfOk result (λ more. seen more ≡ fetched place.now (seen told)) }
{
    match place {
        None => told.null("fetch"),
        Some(place) => told.inner("fetch", place_object(alloc, place)?),
    }
}

fn place_object(alloc: Global, place: &Place) -> Result<Object, AllocError>
    ensures { IfOk result (λ told. seen told ≡ place_members place.now) }
{
    Object::new(alloc)
        .text("desk", place.desk.as_str())?
        .text("stage", place.stage.as_str())
}
