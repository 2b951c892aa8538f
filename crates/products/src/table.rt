//! The table of products and subscribers.
ghost use Rattle.std.specs.Prelude.{◌≡◌, [], IfOk, Option, is_some, option_map, codes};
ghost use Rattle.std.specs.HashMap.{get};
ghost use Rattle.std.specs.Option.{option_copied};
ghost use Rattle.news_types.specs.Names.{same};
ghost use Rattle.news_types.specs.History.{History};
ghost use Rattle.news_types.specs.Frames.{format};
ghost use Rattle.news_types.specs.Products.{lag, product, subscriber};
ghost use Rattle.products.specs.Keeps.{KeepsFacts, product_of, subscriber_of, terms_of};

use news_types::{Format, How, Memory, Name, Names};
use std::alloc::Global;
use std::collections::HashMap;

/// A product as the table keeps it.
#[derive(Clone, Copy)]
pub struct KeptProduct {
    pub(crate) how: How,
    pub(crate) filter: Option<Name>,
}

impl KeptProduct {
    /// Whether it permits what its filter matches, or blocks it.
    pub fn how(&self) -> How
        ensures { result ≡ (product_of self.now).how }
    {
        self.how
    }

    /// Its filter, if it has one.
    pub fn filter(&self) -> Option<Name>
        ensures { result ≡ (product_of self.now).filter }
    {
        self.filter
    }
}

/// A subscriber as the table keeps it.
#[derive(Drop)]
pub struct KeptSubscriber {
    pub(crate) format: Format,
    pub(crate) active: bool,
    pub(crate) products: Names,
    pub(crate) off: Names,
    pub(crate) lag: u32,
}

impl KeptSubscriber {
    /// The format in which its entries are pushed.
    pub fn format(&self) -> Format
        ensures { result ≡ (subscriber_of self.now).format }
    {
        self.format
    }

    /// Whether new stories are permitted to it at all.
    pub fn is_active(&self) -> bool
        ensures { result ≡ (subscriber_of self.now).active }
    {
        self.active
    }

    /// The names of its products.
    pub fn products(&self) -> &[Name]
        ensures { result.now ≡ (subscriber_of self.now).products }
    {
        self.products.as_slice()
    }

    /// The names of the global blocks that it has switched off.
    pub fn off(&self) -> &[Name]
        ensures { result.now ≡ (subscriber_of self.now).off }
    {
        self.off.as_slice()
    }

    /// By how many seconds it gets later what is published.
    pub fn lag(&self) -> u32
        ensures { result ≡ (subscriber_of self.now).lag }
    {
        self.lag
    }
}

/// The format of a subscriber, which never changes, and its lag.
#[derive(Clone, Copy)]
pub(crate) struct Terms {
    pub(crate) format: Format,
    pub(crate) lag: u32,
}

/// Products and subscribers.
#[derive(Drop)]
pub struct Products {
    pub(crate) alloc: Global,
    pub(crate) products: HashMap<Name, KeptProduct>,
    pub(crate) subscribers: HashMap<Name, KeptSubscriber>,
    /// The subscribers, in byte order.
    pub(crate) names: Vec<Name>,
}

/// The product that is there from the start.
fn all() -> Name
    ensures { result ≡ codes "all" }
{
    match Name::read("all") {
        Some(name) => name,
        None => unreachable!(),
    }
}

impl Products {
    /// With one product, `all`, that permits every story, and no subscriber.
    pub fn new(alloc: Global) -> Result<Products, Memory>
        ensures { IfOk result (λ products. KeepsFacts products []) }
    {
        let mut products = HashMap::new(alloc);
        products.insert(
            all(),
            KeptProduct {
                how: How::Permitting,
                filter: None,
            },
        )?;
        Ok(Products {
            alloc,
            products,
            subscribers: HashMap::new(alloc),
            names: Vec::new(alloc),
        })
    }

    /// The product of that name, if it is there. It takes no memory.
    pub fn product(&self, name: &Name) -> Option<KeptProduct>
        ensures { (h : History) → KeepsFacts self.now h → option_map product_of result ≡ product h name.now }
    {
        self.products.get(name).copied()
    }

    /// What is kept of the subscriber, if it is there. It takes no memory.
    pub fn terms(&self, name: &Name) -> Option<&KeptSubscriber>
        ensures { (h : History) → KeepsFacts self.now h
            → option_map subscriber_of (option_copied result) ≡ subscriber h name.now }
    {
        self.subscribers.get(name)
    }

    /// The format of the subscriber, if it is there. It takes no memory.
    pub fn format(&self, subscriber: &Name) -> Option<Format>
        ensures { (h : History) → KeepsFacts self.now h → result ≡ format h subscriber.now }
    {
        match self.kept_terms(subscriber) {
            Some(terms) => Some(terms.format),
            None => None,
        }
    }

    /// By how many seconds the subscriber gets later what is published; 0 for one that is not there. It takes no
    /// memory.
    pub fn lag(&self, subscriber: &Name) -> u32
        ensures { (h : History) → KeepsFacts self.now h → result ≡ lag h subscriber.now }
    {
        match self.kept_terms(subscriber) {
            Some(terms) => terms.lag,
            None => 0,
        }
    }

    /// What is kept of the subscriber beside what a setting gives.
    pub(crate) fn kept_terms(&self, subscriber: &Name) -> Option<Terms>
        ensures { result ≡ option_map terms_of (get same self.now.subscribers subscriber.now) }
    {
        match self.subscribers.get(subscriber) {
            Some(kept) => Some(Terms {
                format: kept.format,
                lag: kept.lag,
            }),
            None => None,
        }
    }

    /// Whether the product is there.
    pub(crate) fn has_product(&self, name: &Name) -> bool
        ensures { result ≡ is_some (get same self.now.products name.now) }
    {
        self.products.contains_key(name)
    }

    /// Whether the subscriber is there.
    pub(crate) fn has_subscriber(&self, name: &Name) -> bool
        ensures { result ≡ is_some (get same self.now.subscribers name.now) }
    {
        self.subscribers.contains_key(name)
    }
}
