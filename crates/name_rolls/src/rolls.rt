//! The rolls of all things.
ghost use Rattle.std.specs.Prelude.{◌≡◌, ◌∷◌, [], List, IfOk, OnOk, false, true, codes};
ghost use Rattle.news_types.specs.Users.{admin};
ghost use Rattle.news_types.specs.Names.{Bytes};
ghost use Rattle.news_types.specs.History.{History};
ghost use Rattle.news_types.specs.Answers.{in_order};
ghost use Rattle.news_types.specs.Desks.{is_desk};
ghost use Rattle.desk_views.specs.Things.{things, stages, names_of};
ghost use Rattle.desk_views.specs.declared.question.Register.{Register};
ghost use Rattle.name_rolls.specs.Rolls.{roll_of, names_in, same_register, HasPlace};
ghost use Rattle.name_rolls.specs.Keeps.{KeepsRolls, IsAlike};

use crate::roll::Roll;
use desk_views::Register;
use news_types::{Memory, Name};
use std::alloc::Global;
use std::collections::HashMap;

/// The names of the things of each kind, and of the stages of each desk, in byte order.
#[derive(Drop)]
pub struct Rolls {
    pub(crate) alloc: Global,
    pub(crate) users: Roll,
    pub(crate) desks: Roll,
    pub(crate) conditions: Roll,
    pub(crate) filters: Roll,
    pub(crate) products: Roll,
    pub(crate) subscribers: Roll,
    pub(crate) schemes: Roll,
    pub(crate) providers: Roll,
    pub(crate) stages: HashMap<Name, Roll>,
}

/// The user that is there from the start.
fn admin() -> Name
    ensures { result ≡ admin }
{
    match Name::read("admin") {
        Some(name) => name,
        None => unreachable!(),
    }
}

/// The product that is there from the start.
fn all() -> Name
    ensures { result ≡ codes "all" }
{
    match Name::read("all") {
        Some(name) => name,
        None => unreachable!(),
    }
}

/// A roll with this name alone.
fn roll_of_one(alloc: Global, name: Name) -> Result<Roll, Memory>
    ensures { IfOk result (λ roll. roll.names.items ≡ in_order (name ∷ [])) }
{
    let mut roll = Roll::new(alloc);
    roll.reserve()?;
    roll.put(name);
    Ok(roll)
}

impl Rolls {
    /// With what the empty list has: the user `admin` and the product `all`.
    pub fn new(alloc: Global) -> Result<Rolls, Memory>
        ensures { IfOk result (λ rolls. KeepsRolls rolls []) }
    {
        Ok(Rolls {
            alloc,
            users: roll_of_one(alloc, admin())?,
            desks: Roll::new(alloc),
            conditions: Roll::new(alloc),
            filters: Roll::new(alloc),
            products: roll_of_one(alloc, all())?,
            subscribers: Roll::new(alloc),
            schemes: Roll::new(alloc),
            providers: Roll::new(alloc),
            stages: HashMap::new(alloc),
        })
    }

    /// The names of the things of a kind, in byte order. It takes no memory.
    pub fn names(&self, of: Register) -> &[Name]
        ensures { (h : History) → KeepsRolls self.now h → result.now ≡ in_order (names_of of h) }
    {
        self.roll(of).names.as_slice()
    }

    /// The first hundred of them behind a name, or of all. It takes no memory.
    pub fn page(&self, of: Register, after: &Option<Name>) -> &[Name]
        ensures { (h : History) → KeepsRolls self.now h → result.now ≡ things h of after.now }
    {
        self.roll(of).page(after)
    }

    /// The stages of a desk that is there, in byte order. It takes no memory.
    pub fn stages(&self, desk: &Name) -> &[Name]
        ensures { (h : History) → KeepsRolls self.now h → is_desk h desk.now ≡ true → result.now ≡ stages h desk.now }
    {
        match self.stages.get(desk) {
            Some(roll) => roll.names.as_slice(),
            None => &[],
        }
    }

    /// The roll of the things of a kind.
    fn roll(&self, of: Register) -> &Roll
        ensures { result.now ≡ roll_of of self.now }
    {
        match of {
            Register::Users => &self.users,
            Register::Desks => &self.desks,
            Register::Conditions => &self.conditions,
            Register::Filters => &self.filters,
            Register::Products => &self.products,
            Register::Subscribers => &self.subscribers,
            Register::Schemes => &self.schemes,
            Register::Providers => &self.providers,
        }
    }

    /// Takes the memory for one more thing of a kind.
    pub(crate) fn reserve(&mut self, of: Register) -> Result<(), Memory>
        ensures alike { IsAlike self.old self.new }
        ensures room { OnOk result (HasPlace (roll_of of self.new)) }
        ensures stages { self.new.stages ≡ self.old.stages }
    {
        match of {
            Register::Users => self.users.reserve(),
            Register::Desks => self.desks.reserve(),
            Register::Conditions => self.conditions.reserve(),
            Register::Filters => self.filters.reserve(),
            Register::Products => self.products.reserve(),
            Register::Subscribers => self.subscribers.reserve(),
            Register::Schemes => self.schemes.reserve(),
            Register::Providers => self.providers.reserve(),
        }
    }

    /// Puts the name of one more thing of a kind at its place. It takes no memory.
    pub(crate) fn put(&mut self, of: Register, name: Name)
        requires { HasPlace (roll_of of self.old) }
        ensures one { (names : List Bytes) → names_in (roll_of of self.old) ≡ in_order names → names_in (roll_of of self.new) ≡ in_order (name ∷ names) }
        ensures others { (other : Register) → same_register of other ≡ false → roll_of other self.new ≡ roll_of other self.old }
        ensures stages { self.new.stages ≡ self.old.stages }
    {
        match of {
            Register::Users => self.users.put(name),
            Register::Desks => self.desks.put(name),
            Register::Conditions => self.conditions.put(name),
            Register::Filters => self.filters.put(name),
            Register::Products => self.products.put(name),
            Register::Subscribers => self.subscribers.put(name),
            Register::Schemes => self.schemes.put(name),
            Register::Providers => self.providers.put(name),
        }
    }
}
