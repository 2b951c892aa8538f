//! The things of a newsroom.
ghost use Rattle.std.specs.Prelude.{◌≡◌, IfOk, map};
ghost use Rattle.news_types.specs.History.{History};
ghost use Rattle.newsroom.specs.Stands.{StandsFor};
ghost use Rattle.rule_tables.specs.Keeps.{KeepsRules};
ghost use Rattle.told_objects.specs.Members.{◌with◌, text, list, answering, written};
ghost use Rattle.told_objects.specs.Seen.{seen};
ghost use Rattle.desk_questions.specs.Words.{register_word};
ghost use Rattle.desk_questions.specs.Things.{thing_row};
ghost use Rattle.desk_questions.specs.Told.{things_told};

use crate::answer::DeskTold;
use crate::rows::{desk_row, product_row, provider_row, subscriber_row, user_row};
use crate::rule_rows::{condition_row, filter_row, scheme_row};
use crate::words::word_of_register;
use desk_views::Register;
use news_types::{Bytes, Memory, Name};
use newsroom::Newsroom;
use rule_tables::Rules;
use std::alloc::Global;
use told_objects::Object;

/// The first hundred things of a kind whose names stand behind this one.
pub(crate) fn tell_things(
    alloc: Global,
    newsroom: &Newsroom,
    of: Register,
    after: &Option<Name>,
) -> Result<DeskTold, Memory>
    ensures { IfOk result (λ told. (h : History) → StandsFor newsroom.now h
        → told ≡ things_told h of after.now) }
{
    let rules = newsroom.rules();
    let names = rules.things(of, after);
    let rows = thing_rows(alloc, rules, of, names)?;
    Ok(DeskTold::Found(things_object(alloc, of, rows)?))
}

/// These rows, as an object.
fn things_object(alloc: Global, of: Register, rows: Vec<Object>) -> Result<Bytes, Memory>
    ensures { IfOk result (λ bytes. bytes ≡ written (answering "things" with text "of" (register_word of) with list "rows" seen rows.items)) }
{
    Object::answering(alloc, "things")?
        .text("of", word_of_register(of))?
        .rows("rows", rows)?
        .written()
}

/// What is told of each of these.
fn thing_rows(
    alloc: Global,
    rules: &Rules,
    of: Register,
    names: &[Name],
) -> Result<Vec<Object>, Memory>
    ensures { IfOk result (λ rows. (h : History) → KeepsRules rules.now h
        → map seen rows.items ≡ map (thing_row h of) names.now) }
{
    let mut rows = Vec::new(alloc);
    for name in names {
        rows.push(thing_row(alloc, rules, of, name)?)?;
    }
    Ok(rows)
}

/// The thing of that kind and name.
fn thing_row(alloc: Global, rules: &Rules, of: Register, name: &Name) -> Result<Object, Memory>
    ensures { IfOk result (λ told. (h : History) → KeepsRules rules.now h
        → seen told ≡ thing_row h of name.now) }
{
    match of {
        Register::Users => user_row(alloc, rules, name),
        Register::Desks => desk_row(alloc, rules, name),
        Register::Conditions => condition_row(alloc, rules, name),
        Register::Filters => filter_row(alloc, rules, name),
        Register::Products => product_row(alloc, rules, name),
        Register::Subscribers => subscriber_row(alloc, rules, name),
        Register::Schemes => scheme_row(alloc, rules, name),
        Register::Providers => provider_row(alloc, rules, name),
    }
}
