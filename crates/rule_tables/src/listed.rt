//! The things of the newsroom by their names, and their names in order.
ghost use Rattle.std.specs.Prelude.{◌≡◌, true, IfOk, Some, None, option_map, if◌then◌else◌};
ghost use Rattle.std.specs.Option.{option_copied};
ghost use Rattle.news_types.specs.History.{History};
ghost use Rattle.news_types.specs.Users.{privileges};
ghost use Rattle.news_types.specs.Desks.{is_desk};
ghost use Rattle.news_types.specs.Conditions.{condition};
ghost use Rattle.news_types.specs.Filters.{filters, is_filter};
ghost use Rattle.news_types.specs.Products.{product, subscriber as terms_of};
ghost use Rattle.news_types.specs.Routing.{scheme, provider};
ghost use Rattle.desk_views.specs.Things.{things, stages, members, filter_age, is_block};
ghost use Rattle.content_filters.specs.Kept.{condition_of, kept_of, filter_named};
ghost use Rattle.products.specs.Keeps.{product_of, subscriber_of};
ghost use Rattle.rule_tables.specs.Keeps.{KeepsRules};
ghost use Rattle.rule_tables.specs.Listed.{provider_of};

use crate::rules::Rules;
use content_filters::{KeptCondition, KeptFilter};
use desk_views::Register;
use news_types::{Memory, Name, Names, Privileges, Rule};
use products::{KeptProduct, KeptSubscriber};
use std::alloc::Global;

impl Rules {
    /// The first hundred names of a kind behind a name, or of all, in byte order. It takes no memory.
    pub fn things(&self, of: Register, after: &Option<Name>) -> &[Name]
        ensures { (h : History) → KeepsRules self.now h → result.now ≡ things h of after.now }
    {
        self.rolls.page(of, after)
    }

    /// The stages of a desk that is there, in byte order. It takes no memory.
    pub fn stages(&self, desk: &Name) -> &[Name]
        ensures { (h : History) → KeepsRules self.now h → is_desk h desk.now ≡ true → result.now ≡ stages h desk.now }
    {
        self.rolls.stages(desk)
    }

    /// The members of a desk, in byte order: each user is looked at.
    pub fn members(&self, alloc: Global, desk: &Name) -> Result<Names, Memory>
        ensures { IfOk result (λ names. (h : History) → KeepsRules self.now h → names ≡ members h desk.now) }
    {
        let users = self.rolls.names(Register::Users);
        let mut names = Vec::new(alloc);
        for user in users.iter() {
            if self.desks.is_member(desk, user) {
                names.push(*user)?;
            }
        }
        Ok(Names::of(names))
    }

    /// What the user may do, if it is there. It takes no memory.
    pub fn privileges(&self, user: &Name) -> Option<Privileges>
        ensures { (h : History) → KeepsRules self.now h → result ≡ privileges h user.now }
    {
        self.desks.privileges(user)
    }

    /// The condition of that name, if it is there. It takes no memory.
    pub fn condition(&self, name: &Name) -> Option<&KeptCondition>
        ensures { (h : History) → KeepsRules self.now h → option_map condition_of (option_copied result) ≡ condition h name.now }
    {
        self.filters.condition(name)
    }

    /// The filter of that name, if it is there. It takes no memory.
    pub fn filter(&self, name: &Name) -> Option<&KeptFilter>
        ensures { (h : History) → KeepsRules self.now h → option_copied result ≡ option_map kept_of (filter_named name.now (filters h)) }
    {
        self.filters.filter(name)
    }

    /// The place of the filter among all, where the oldest has 1, if it is there. It takes no memory.
    pub fn filter_age(&self, name: &Name) -> Option<u32>
        ensures { (h : History) → KeepsRules self.now h → result ≡ (if is_filter h name.now then Some (filter_age h name.now) else None) }
    {
        self.filters.filter_age(name)
    }

    /// Whether the filter is there and blocks for all. It takes no memory.
    pub fn is_block(&self, name: &Name) -> bool
        ensures { (h : History) → KeepsRules self.now h → result ≡ is_block h name.now }
    {
        self.filters.is_block(name)
    }

    /// The product of that name, if it is there. It takes no memory.
    pub fn product(&self, name: &Name) -> Option<KeptProduct>
        ensures { (h : History) → KeepsRules self.now h → option_map product_of result ≡ product h name.now }
    {
        self.products.product(name)
    }

    /// What is kept of the subscriber, if it is there. It takes no memory.
    pub fn terms(&self, subscriber: &Name) -> Option<&KeptSubscriber>
        ensures { (h : History) → KeepsRules self.now h → option_map subscriber_of (option_copied result) ≡ terms_of h subscriber.now }
    {
        self.products.terms(subscriber)
    }

    /// The rules of the scheme of that name, if it is there. It takes no memory.
    pub fn scheme(&self, name: &Name) -> Option<&[Rule]>
        ensures { (h : History) → KeepsRules self.now h → option_copied result ≡ scheme h name.now }
    {
        match self.sources.schemes.get(name) {
            Some(routes) => Some(routes.rules()),
            None => None,
        }
    }

    /// The scheme of the provider, if it has one, where the provider is there. It takes no memory.
    pub fn provider(&self, name: &Name) -> Option<Option<Name>>
        ensures { (h : History) → KeepsRules self.now h → option_map provider_of result ≡ provider h name.now }
    {
        match self.sources.providers.get(name) {
            Some(source) => Some(source.scheme),
            None => None,
        }
    }
}
