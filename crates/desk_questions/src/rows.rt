//! What is told of the people of a newsroom, of its desks, its products, its subscribers and its providers.
ghost use Rattle.std.specs.Prelude.{◌≡◌, IfOk};
ghost use Rattle.news_types.specs.History.{History};
ghost use Rattle.news_types.specs.Users.{privileges};
ghost use Rattle.news_types.specs.Desks.{is_desk};
ghost use Rattle.news_types.specs.Products.{product, subscriber};
ghost use Rattle.news_types.specs.Routing.{provider};
ghost use Rattle.desk_views.specs.Things.{members, stages};
ghost use Rattle.products.specs.Keeps.{product_of, subscriber_of};
ghost use Rattle.rule_tables.specs.Keeps.{KeepsRules};
ghost use Rattle.told_objects.specs.Seen.{seen};
ghost use Rattle.desk_questions.specs.Rows.{user_members, user_row, desk_members, desk_row, product_members, product_row, subscriber_members, subscriber_row, provider_members, provider_row, name_or_null};

use crate::words::{privilege_words, word_of_format, word_of_how};
use news_types::{Memory, Name, Privileges};
use products::{KeptProduct, KeptSubscriber};
use rule_tables::Rules;
use std::alloc::{AllocError, Global};
use told_objects::Object;

/// The object with a name, null where there is none.
#[tactic(auto, unfolding(crate::specs::Rows::name_or_null))]
pub(crate) fn named(told: Object, key: &str, name: &Option<Name>) -> Result<Object, AllocError>
    ensures { IfOk result (λ more. seen more ≡ name_or_null key.now name.now (seen told)) }
{
    match name {
        None => told.null(key),
        Some(name) => told.text(key, name.as_str()),
    }
}

/// A user, if it is there.
pub(crate) fn user_row(alloc: Global, rules: &Rules, name: &Name) -> Result<Object, Memory>
    ensures { IfOk result (λ told. (h : History) → KeepsRules rules.now h
        → seen told ≡ user_row name.now (privileges h name.now)) }
{
    let Some(set) = rules.privileges(name) else {
        return Ok(Object::new(alloc));
    };
    let row = user_object(alloc, name, set)?;
    Ok(row)
}

#[tactic(auto, unfolding(crate::specs::Rows::user_members))]
fn user_object(alloc: Global, name: &Name, set: Privileges) -> Result<Object, Memory>
    ensures { IfOk result (λ told. seen told ≡ user_members name.now set) }
{
    let words = privilege_words(alloc, set)?;
    let row = Object::new(alloc)
        .texts("privileges", words.as_slice())?
        .text("user", name.as_str())?;
    Ok(row)
}

/// A desk with its members and its stages, if it is there.
pub(crate) fn desk_row(alloc: Global, rules: &Rules, name: &Name) -> Result<Object, Memory>
    ensures { IfOk result (λ told. (h : History) → KeepsRules rules.now h
        → seen told ≡ desk_row name.now (is_desk h name.now) (members h name.now) (stages h name.now)) }
{
    if !rules.is_desk(name) {
        return Ok(Object::new(alloc));
    }
    let members = rules.members(alloc, name)?;
    let row = desk_object(alloc, name, members.as_slice(), rules.stages(name))?;
    Ok(row)
}

#[tactic(auto, unfolding(crate::specs::Rows::desk_members))]
fn desk_object(
    alloc: Global,
    name: &Name,
    members: &[Name],
    stages: &[Name],
) -> Result<Object, AllocError>
    ensures { IfOk result (λ told. seen told ≡ desk_members name.now members.now stages.now) }
{
    Object::new(alloc)
        .text("desk", name.as_str())?
        .texts("members", members)?
        .texts("stages", stages)
}

/// A product, if it is there.
pub(crate) fn product_row(alloc: Global, rules: &Rules, name: &Name) -> Result<Object, Memory>
    ensures { IfOk result (λ told. (h : History) → KeepsRules rules.now h
        → seen told ≡ product_row name.now (product h name.now)) }
{
    let Some(kept) = rules.product(name) else {
        return Ok(Object::new(alloc));
    };
    let row = product_object(alloc, name, kept)?;
    Ok(row)
}

#[tactic(auto, unfolding(crate::specs::Rows::product_members))]
fn product_object(alloc: Global, name: &Name, kept: KeptProduct) -> Result<Object, AllocError>
    ensures { IfOk result (λ told. seen told ≡ product_members name.now (product_of kept)) }
{
    named(Object::new(alloc), "filter", &kept.filter())?
        .text("how", word_of_how(kept.how()))?
        .text("product", name.as_str())
}

/// A subscriber, if it is there.
pub(crate) fn subscriber_row(alloc: Global, rules: &Rules, name: &Name) -> Result<Object, Memory>
    ensures { IfOk result (λ told. (h : History) → KeepsRules rules.now h
        → seen told ≡ subscriber_row name.now (subscriber h name.now)) }
{
    let Some(kept) = rules.terms(name) else {
        return Ok(Object::new(alloc));
    };
    let row = subscriber_object(alloc, name, kept)?;
    Ok(row)
}

#[tactic(auto, unfolding(crate::specs::Rows::subscriber_members))]
fn subscriber_object(
    alloc: Global,
    name: &Name,
    kept: &KeptSubscriber,
) -> Result<Object, AllocError>
    ensures { IfOk result (λ told. seen told ≡ subscriber_members name.now (subscriber_of kept.now)) }
{
    Object::new(alloc)
        .flag("active", kept.is_active())?
        .text("format", word_of_format(kept.format()))?
        .number("lag", u64::from(kept.lag()))?
        .texts("off", kept.off())?
        .texts("products", kept.products())?
        .text("subscriber", name.as_str())
}

/// A provider, if it is there.
pub(crate) fn provider_row(alloc: Global, rules: &Rules, name: &Name) -> Result<Object, Memory>
    ensures { IfOk result (λ told. (h : History) → KeepsRules rules.now h
        → seen told ≡ provider_row name.now (provider h name.now)) }
{
    let Some(scheme) = rules.provider(name) else {
        return Ok(Object::new(alloc));
    };
    let row = provider_object(alloc, name, &scheme)?;
    Ok(row)
}

#[tactic(auto, unfolding(crate::specs::Rows::provider_members))]
fn provider_object(alloc: Global, name: &Name, scheme: &Option<Name>) -> Result<Object, AllocError>
    ensures { IfOk result (λ told. seen told ≡ provider_members name.now scheme.now) }
{
    named(
        Object::new(alloc).text("provider", name.as_str())?,
        "scheme",
        scheme,
    )
}
