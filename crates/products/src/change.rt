//! Changes of the table: their memory is taken first, and they are made later without any.
ghost use Rattle.std.specs.Prelude.{◌≡◌, ◌+◌, ◌<◌, ℕ, List, [], ◌∷◌, Option, Some, None, IfOk, true, is_some, if◌then◌else◌, vec_len, vec_capacity};
ghost use Rattle.std.specs.HashMap.{get, hash_map_len, spare};
ghost use Rattle.news_types.specs.Names.{Bytes, same};
ghost use Rattle.news_types.specs.History.{History};
ghost use Rattle.news_types.specs.Products.{Product, Subscriber, product, product_after, products_added, subscriber, subscriber_after, subscribers_after};
ghost use Rattle.news_types.specs.declared.entry.Entry.{Entry};
ghost use Rattle.news_types.specs.declared.entry.Act.TheVariants.{Request};
ghost use Rattle.news_types.specs.declared.command.Command.{Command};
ghost use Rattle.products.specs.declared.change.Step.TheVariants as step;
ghost use Rattle.products.specs.Keeps.{Keeps, KeepsFacts, subscriber_of};
ghost use Rattle.products.specs.Asked.{judge_denial};
ghost use Rattle.products.specs.Steps.{IsStep, IsFor, other_step, IsAlike, HasRoomFor, HasRoom};

use crate::table::{KeptProduct, KeptSubscriber, Products};
use news_types::{Command, Format, How, Memory, Name, Names, insert_in_order};
use std::collections::HashMap;

/// What a change does.
#[derive(Drop)]
pub(crate) enum Step {
    AddProduct {
        name: Name,
        product: KeptProduct,
    },
    SetProduct {
        name: Name,
        product: KeptProduct,
    },
    AddSubscriber {
        name: Name,
        subscriber: KeptSubscriber,
    },
    SetSubscriber {
        name: Name,
        subscriber: KeptSubscriber,
    },
    Nothing,
}

/// A change of the table, with the memory for it taken. One that is dropped changes nothing.
#[derive(Drop)]
pub struct ProductChange {
    pub(crate) step: Step,
}

impl Products {
    /// Takes the memory for a command that `judge` allows. Products and subscribers stay as they are, also where
    /// memory is wanting. A command on other things makes a change that does nothing.
    pub fn prepare(&mut self, command: &Command) -> Result<ProductChange, Memory>
        ensures stays { (h : History) → KeepsFacts self.old h → KeepsFacts self.new h }
        ensures room { IfOk result (λ change. HasRoom self.new change) }
        ensures change { (h : History) → KeepsFacts self.old h → judge_denial h command.now ≡ None → IfOk result (λ change. IsFor change command.now h) }
    {
        let step = self.prepare_step(command)?;
        Ok(ProductChange { step })
    }

    /// Makes a change. It takes no memory. Nothing may have been committed since the change was prepared.
    pub fn commit(&mut self, change: ProductChange)
        requires { HasRoom self.old change }
        ensures { (h : History) (e : Entry) (caller : Bytes) (number : ℕ) (command : Command) → KeepsFacts self.old h → IsFor change command h
            → e.act ≡ Request caller number command → KeepsFacts self.new (e ∷ h) }
    {
        let ProductChange { step } = change;
        self.apply(step);
    }

    /// Makes a step. It takes no memory.
    fn apply(&mut self, step: Step)
        requires { HasRoomFor self.old step }
        ensures { (command : Command) (product : Bytes → Option Product) (count : ℕ) (subscriber : Bytes → Option Subscriber) (names : List Bytes)
            → Keeps self.old product count subscriber names → IsStep step command product subscriber
            → Keeps self.new (λ name. product_after name command (product name)) (count + products_added command) (λ name. subscriber_after name command (subscriber name)) (subscribers_after command names) }
    {
        match step {
            Step::AddProduct { name, product } => put_product(&mut self.products, name, product),
            Step::SetProduct { name, product } => put_product(&mut self.products, name, product),
            Step::AddSubscriber { name, subscriber } => self.add_subscriber(name, subscriber),
            Step::SetSubscriber { name, subscriber } => {
                put_subscriber(&mut self.subscribers, name, subscriber)
            }
            Step::Nothing => {}
        }
    }

    /// Takes the memory for a command, and copies what is kept of it.
    fn prepare_step(&mut self, command: &Command) -> Result<Step, Memory>
        ensures alike { IsAlike self.old self.new }
        ensures room { IfOk result (HasRoomFor self.new) }
        ensures step { (h : History) → KeepsFacts self.old h → judge_denial h command.now ≡ None → IfOk result (λ made. IsStep made command.now (product h) (subscriber h)) }
    {
        match command {
            Command::AddProduct {
                product,
                how,
                filter,
            } => self.prepare_new_product(*product, kept_product(*how, *filter)),
            Command::SetProduct {
                product,
                how,
                filter,
            } => self.prepare_other_product(*product, kept_product(*how, *filter)),
            Command::AddSubscriber {
                subscriber,
                format,
                products,
                lag,
            } => self.prepare_new(*subscriber, *format, products, *lag),
            Command::SetSubscriber {
                subscriber,
                active,
                products,
                off,
                lag,
            } => self.prepare_other(*subscriber, *active, products, off, *lag),
            _ => Ok(Step::Nothing),
        }
    }

    /// Takes the memory for a new product.
    fn prepare_new_product(&mut self, name: Name, product: KeptProduct) -> Result<Step, Memory>
        ensures alike { IsAlike self.old self.new }
        ensures made { IfOk result (λ made. made ≡ step.AddProduct name product) }
        ensures room { IfOk result (HasRoomFor self.new) }
    {
        self.products.reserve(1)?;
        Ok(Step::AddProduct { name, product })
    }

    /// Takes the memory for another setting of a product.
    fn prepare_other_product(&mut self, name: Name, product: KeptProduct) -> Result<Step, Memory>
        ensures alike { IsAlike self.old self.new }
        ensures made { IfOk result (λ made. made ≡ step.SetProduct name product) }
        ensures room { IfOk result (HasRoomFor self.new) }
    {
        self.products.reserve(1)?;
        Ok(Step::SetProduct { name, product })
    }

    /// Takes the memory for a new subscriber.
    fn prepare_new(
        &mut self,
        name: Name,
        format: Format,
        products: &Names,
        lag: u32,
    ) -> Result<Step, Memory>
        ensures alike { IsAlike self.old self.new }
        ensures made { IfOk result (λ made. made ≡ step.AddSubscriber name (record { format = format; active = true; products = products.now; off = []; lag = lag })) }
        ensures room { IfOk result (HasRoomFor self.new) }
    {
        let products = products.copy()?;
        self.subscribers.reserve(1)?;
        self.names.reserve(1)?;
        Ok(Step::AddSubscriber {
            name,
            subscriber: KeptSubscriber {
                format,
                active: true,
                products,
                off: Names::of(Vec::new(self.alloc)),
                lag,
            },
        })
    }

    /// Takes the memory for another setting of a subscriber. One that is not there has none.
    fn prepare_other(
        &mut self,
        name: Name,
        active: bool,
        products: &Names,
        off: &Names,
        lag: Option<u32>,
    ) -> Result<Step, Memory>
        ensures alike { IsAlike self.old self.new }
        ensures made { IfOk result (λ made. made ≡ other_step self.old name active products.now off.now lag) }
        ensures room { IfOk result (HasRoomFor self.new) }
    {
        let Some(terms) = self.kept_terms(&name) else {
            return Ok(Step::Nothing);
        };
        let products = products.copy()?;
        let off = off.copy()?;
        self.subscribers.reserve(1)?;
        Ok(Step::SetSubscriber {
            name,
            subscriber: KeptSubscriber {
                format: terms.format,
                active,
                products,
                off,
                lag: lag.unwrap_or(terms.lag),
            },
        })
    }

    /// Adds a subscriber.
    fn add_subscriber(&mut self, name: Name, subscriber: KeptSubscriber)
        requires subscribers { 0 < spare self.old.subscribers }
        requires names { vec_len self.old.names < vec_capacity self.old.names }
        ensures { (product : Bytes → Option Product) (count : ℕ) (found : Bytes → Option Subscriber) (names : List Bytes)
            → Keeps self.old product count found names → found name ≡ None
            → Keeps self.new product count (λ other. if same name other then Some (subscriber_of subscriber) else found other) (name ∷ names) }
    {
        insert_in_order(&mut self.names, name);
        put_subscriber(&mut self.subscribers, name, subscriber);
    }
}

/// A product that is kept.
fn kept_product(how: How, filter: Option<Name>) -> KeptProduct
    ensures { result ≡ record { how = how; filter = filter } }
{
    KeptProduct { how, filter }
}

/// Says what the product is. It takes no memory.
fn put_product(products: &mut HashMap<Name, KeptProduct>, name: Name, product: KeptProduct)
    requires { 0 < spare products.old }
    ensures products { (other : Bytes) → get same products.new other ≡ (if same name other then Some product else get same products.old other) }
    ensures len { hash_map_len products.new ≡ hash_map_len products.old + (if is_some (get same products.old name) then 0 else 1) }
{
    let _ = products.insert(name, product);
}

/// Says what the subscriber is. It takes no memory.
fn put_subscriber(
    subscribers: &mut HashMap<Name, KeptSubscriber>,
    name: Name,
    subscriber: KeptSubscriber,
)
    requires { 0 < spare subscribers.old }
    ensures { (other : Bytes) → get same subscribers.new other ≡ (if same name other then Some subscriber else get same subscribers.old other) }
{
    drop(subscribers.insert(name, subscriber));
}
