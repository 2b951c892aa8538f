//! Whether a command on products or subscribers is allowed.
ghost use Rattle.std.specs.Prelude.{◌≡◌, ℕ, Bool, Option, is_some};
ghost use Rattle.std.specs.List.{list_all};
ghost use Rattle.std.specs.HashMap.{get};
ghost use Rattle.news_types.specs.Names.{same};
ghost use Rattle.news_types.specs.History.{History};
ghost use Rattle.news_types.specs.Filters.{is_filter};
ghost use Rattle.news_types.specs.declared.command.Command.TheVariants as command;
ghost use Rattle.news_types.specs.declared.words.How.{How};
ghost use Rattle.news_types.specs.declared.words.Format.{Format};
ghost use Rattle.content_filters.specs.Reasons.{KeepsFacts as KeepsFilters};
ghost use Rattle.products.specs.Keeps.{KeepsFacts};
ghost use Rattle.products.specs.Asked.{Keep, judge_denial, is_there_if_given};

use crate::table::Products;
use content_filters::Filters;
use news_types::{Command, Denial, Name, Thing};

/// How many products there may be.
const MOST_PRODUCTS: u32 = 1024;

/// How many subscribers there may be.
const MOST_SUBSCRIBERS: u32 = 256;

impl Products {
    /// Denies a command that adds or sets a product or a subscriber, by the first of these reasons: it names something
    /// that is not there; its name is taken; there are too many. Every other command passes. It takes no memory.
    pub fn judge(&self, filters: &Filters, command: &Command) -> Option<Denial>
        ensures { (h : History) → Keep self.now filters.now h → result ≡ judge_denial h command.now }
    {
        match command {
            Command::AddProduct {
                product,
                filter,
                ..
            } => self.new_product(filters, product, filter),
            Command::SetProduct {
                product,
                filter,
                ..
            } => self.other_product(filters, product, filter),
            Command::AddSubscriber {
                subscriber,
                products,
                ..
            } => self.new_subscriber(subscriber, products.as_slice()),
            Command::SetSubscriber {
                subscriber,
                products,
                off,
                ..
            } => self.other_subscriber(filters, subscriber, products.as_slice(), off.as_slice()),
            _ => None,
        }
    }

    /// The first reason to deny a new product.
    fn new_product(
        &self,
        filters: &Filters,
        product: &Name,
        filter: &Option<Name>,
    ) -> Option<Denial>
        ensures { (h : History) (how : How) → Keep self.now filters.now h → result ≡ judge_denial h (command.AddProduct product.now how filter.now) }
    {
        if !has_filter(filters, filter) {
            return Denial::unless_there(Thing::Filter, false);
        }
        if self.has_product(product) {
            return Some(Denial::NameTaken);
        }
        Denial::unless_below(Thing::Product, self.products.len(), MOST_PRODUCTS)
    }

    /// The first reason to deny a product another filter.
    fn other_product(
        &self,
        filters: &Filters,
        product: &Name,
        filter: &Option<Name>,
    ) -> Option<Denial>
        ensures { (h : History) (how : How) → Keep self.now filters.now h → result ≡ judge_denial h (command.SetProduct product.now how filter.now) }
    {
        if !self.has_product(product) {
            return Denial::unless_there(Thing::Product, false);
        }
        Denial::unless_there(Thing::Filter, has_filter(filters, filter))
    }

    /// The first reason to deny a new subscriber.
    fn new_subscriber(&self, subscriber: &Name, products: &[Name]) -> Option<Denial>
        ensures { (h : History) (format : Format) (lag : ℕ) → KeepsFacts self.now h → result ≡ judge_denial h (command.AddSubscriber subscriber.now format products.now lag) }
    {
        if !self.has_all(products) {
            return Denial::unless_there(Thing::Product, false);
        }
        if self.has_subscriber(subscriber) {
            return Some(Denial::NameTaken);
        }
        Denial::unless_below(Thing::Subscriber, self.names.len(), MOST_SUBSCRIBERS)
    }

    /// The first reason to deny a subscriber other products.
    fn other_subscriber(
        &self,
        filters: &Filters,
        subscriber: &Name,
        products: &[Name],
        off: &[Name],
    ) -> Option<Denial>
        ensures { (h : History) (active : Bool) (lag : Option ℕ) → Keep self.now filters.now h → result ≡ judge_denial h (command.SetSubscriber subscriber.now active products.now off.now lag) }
    {
        if !self.has_subscriber(subscriber) {
            return Denial::unless_there(Thing::Subscriber, false);
        }
        if !self.has_all(products) {
            return Denial::unless_there(Thing::Product, false);
        }
        Denial::unless_there(Thing::Filter, has_filters(filters, off))
    }

    /// Whether each of the products is there.
    fn has_all(&self, products: &[Name]) -> bool
        ensures { result ≡ list_all (λ name. is_some (get same self.now.products name)) products.now }
    {
        products.iter().all(|name| self.has_product(name))
    }
}

/// Whether the filter is there, if one is given.
fn has_filter(filters: &Filters, filter: &Option<Name>) -> bool
    ensures { (h : History) → KeepsFilters filters.now h → result ≡ is_there_if_given (is_filter h) filter.now }
{
    match filter {
        Some(filter) => filters.has(filter),
        None => true,
    }
}

/// Whether each of the filters is there.
fn has_filters(filters: &Filters, names: &[Name]) -> bool
    ensures { (h : History) → KeepsFilters filters.now h → result ≡ list_all (is_filter h) names.now }
{
    for name in names.iter() {
        if !filters.has(name) {
            return false;
        }
    }
    true
}
