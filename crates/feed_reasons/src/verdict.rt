//! What the rules say of a story, for one subscriber.
ghost use Rattle.std.specs.Prelude.{◌≡◌};

use news_types::Name;
use std::marker::Model;

/// A product that does not permit a story.
#[derive(Clone, Copy, PartialEq, Eq)]
pub struct Refusal {
    pub product: Name,
    /// Its filter: one without a filter permits every story.
    pub filter: Option<Name>,
    /// Whether that matches: a permitting product's does not, and a blocking product's does.
    pub matches: bool,
}

/// Refusals, in the order of a subscriber's products.
#[derive(Drop)]
pub struct Refusals {
    items: Vec<Refusal>,
}

impl Model for Refusals {
    ghost use Rattle.std.specs.Prelude.{List};
    ghost use Rattle.feed_reasons.specs.declared.verdict.Refusal.{Refusal};

    ghost Value = { List Refusal };

    ghost view = { λ a. a.items.items };
}

impl Refusals {
    /// These refusals.
    pub fn of(items: Vec<Refusal>) -> Refusals
        ensures { result ≡ items.items }
    {
        Refusals { items }
    }

    /// The refusals.
    pub fn as_slice(&self) -> &[Refusal]
        ensures { result.now ≡ self.now }
    {
        self.items.as_slice()
    }
}

/// Why a story with some targets is permitted to a subscriber, or the first cause that keeps it away.
#[derive(Drop)]
pub enum Verdict {
    /// There is no such subscriber.
    NoSubscriber,
    /// It is not active.
    Inactive,
    /// It is none of the targets.
    NotTarget,
    /// This block stops the story, the youngest that does.
    Blocked { filter: Name },
    /// This product permits it, the first that does.
    Permitted { product: Name },
    /// None of its products does.
    Refused { products: Refusals },
}
