//! What is asked for before the stories.
ghost use Rattle.std.specs.Prelude.{◌≡◌, ◌<◌, ◌++◌, IfOk, OnOk};
ghost use Rattle.news_types.specs.Users.{admin};
ghost use Rattle.drill_plan.specs.Setup.{desk, setup, product_steps, subscriber_step, format_of};

use crate::named::{named, numbered};
use news_types::{
    Command, Field, Format, How, Memory, Name, Names, Op, Statement, Statements, Text, Texts,
};
use std::alloc::Global;
use std::collections::VecDeque;

/// The caller of every request.
pub(crate) fn admin() -> Name
    ensures { result ≡ admin }
{
    named("admin")
}

/// The desk on which stories are made.
pub(crate) fn desk() -> Name
    ensures { result ≡ desk }
{
    named("d")
}

/// The desk with `admin` as its member, the products, and the subscribers.
pub(crate) fn setup(alloc: Global) -> Result<VecDeque<Command>, Memory>
    ensures { IfOk result (λ commands. commands.items ≡ setup) }
{
    let mut commands = VecDeque::new(alloc);
    commands.push_back(Command::AddDesk { desk: desk() })?;
    commands.push_back(Command::SetMember {
        desk: desk(),
        user: admin(),
        member: true,
    })?;
    for i in 0..8 {
        put_product(alloc, &mut commands, i)?;
    }
    for i in 0..8 {
        commands.push_back(subscriber(alloc, i)?)?;
    }
    Ok(commands)
}

/// Appends a condition on the urgency, a filter of it and a product by it.
fn put_product(alloc: Global, commands: &mut VecDeque<Command>, i: u32) -> Result<(), Memory>
    requires { i < 8 }
    ensures { OnOk result (commands.new.items ≡ commands.old.items ++ product_steps i) }
{
    let condition = numbered(alloc, "c", i)?;
    let filter = numbered(alloc, "f", i)?;
    let urgency = format!(in alloc; "{}", i + 1)?;
    commands.push_back(Command::AddCondition {
        condition,
        field: Field::Urgency,
        op: Op::Eq,
        values: Texts::of(vec![in alloc; Text::copy_of(alloc, urgency.as_str())?]?),
    })?;
    commands.push_back(Command::AddFilter {
        filter,
        statements: Statements::of(vec![in alloc;
            Statement {
                conditions: Names::of(vec![in alloc; condition]?),
                filters: Names::of(Vec::new(alloc)),
            },
        ]?),
    })?;
    commands.push_back(Command::AddProduct {
        product: numbered(alloc, "p", i)?,
        how: How::Permitting,
        filter: Some(filter),
    })?;
    Ok(())
}

/// The request for a subscriber.
fn subscriber(alloc: Global, i: u32) -> Result<Command, Memory>
    requires { i < 8 }
    ensures { IfOk result (λ command. command ≡ subscriber_step i) }
{
    let product = if i == 0 {
        named("all")
    } else {
        numbered(alloc, "p", i)?
    };
    Ok(Command::AddSubscriber {
        subscriber: numbered(alloc, "s", i)?,
        format: format_of(i),
        products: Names::of(vec![in alloc; product]?),
        lag: 0,
    })
}

fn format_of(i: u32) -> Format
    ensures { result ≡ format_of i }
{
    if i % 2 == 0 {
        Format::Ninjs
    } else {
        Format::Text7901
    }
}
