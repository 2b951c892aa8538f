//! Who is permitted a story.
ghost use Rattle.std.specs.Prelude.{◌≡◌, not, IfOk, filter};
ghost use Rattle.std.specs.List.{list_any};
ghost use Rattle.std.specs.HashMap.{get};
ghost use Rattle.news_types.specs.Names.{same, is_in};
ghost use Rattle.news_types.specs.History.{History};
ghost use Rattle.news_types.specs.Conditions.{condition};
ghost use Rattle.news_types.specs.Filters.{filters, matches};
ghost use Rattle.news_types.specs.Products as facts;
ghost use Rattle.news_types.specs.declared.story.Story.{Story};
ghost use Rattle.content_filters.specs.Reasons.{KeepsFacts as KeepsFilters};
ghost use Rattle.content_filters.specs.Keeps.{AreVerdicts};
ghost use Rattle.products.specs.Keeps.{KeepsFacts, product_of, subscriber_of};
ghost use Rattle.products.specs.Asked.{Keep, Judges, AreBlocking, permits_to};

use crate::table::{KeptProduct, KeptSubscriber, Products};
use content_filters::{Filters, Verdicts};
use news_types::{How, Memory, Name, Story};

impl Products {
    /// Whether a story with these targets is permitted to the subscriber: it is active; there are no targets, or it is
    /// one of them; no global block that it has not switched off matches; and some product of it permits. One that is
    /// not there is permitted nothing.
    ///
    /// Each filter is judged once. Who asks for many subscribers asks for the `due_list`.
    pub fn permitted(
        &self,
        filters: &Filters,
        story: &Story,
        targets: &[Name],
        subscriber: &Name,
    ) -> Result<bool, Memory>
        ensures { IfOk result (λ answer. (h : History) → Keep self.now filters.now h → answer ≡ facts.permitted h story.now targets.now subscriber.now) }
    {
        let verdicts = filters.verdicts(story)?;
        let blocking = self.blocking(filters, &verdicts)?;
        Ok(self.is_permitted(filters, &verdicts, &blocking, targets, subscriber))
    }

    /// The global blocks that match.
    pub(crate) fn blocking(
        &self,
        filters: &Filters,
        verdicts: &Verdicts,
    ) -> Result<Vec<Name>, Memory>
        ensures { IfOk result (λ names. (h : History) (story : Story) → Judges verdicts.now filters.now h story → AreBlocking names.items h story) }
    {
        self.matching(filters, verdicts, filters.blocks())
    }

    /// Those of the filters that match.
    fn matching(
        &self,
        filters: &Filters,
        verdicts: &Verdicts,
        names: &[Name],
    ) -> Result<Vec<Name>, Memory>
        ensures { IfOk result (λ matching. (h : History) (story : Story) → Judges verdicts.now filters.now h story → matching.items ≡ filter (λ name. matches h name story) names.now) }
    {
        let mut matching = Vec::new(self.alloc);
        for name in names.iter() {
            if filters.matches_with(name, verdicts) {
                matching.push(*name)?;
            }
        }
        Ok(matching)
    }

    /// Whether a story with these targets is permitted to the subscriber, by what the filters say of it.
    pub(crate) fn is_permitted(
        &self,
        filters: &Filters,
        verdicts: &Verdicts,
        blocking: &[Name],
        targets: &[Name],
        subscriber: &Name,
    ) -> bool
        ensures { (h : History) (story : Story) → KeepsFacts self.now h → Judges verdicts.now filters.now h story → AreBlocking blocking.now h story → result ≡ facts.permitted h story targets.now subscriber.now }
    {
        match self.subscribers.get(subscriber) {
            Some(kept) => {
                is_target(subscriber, targets) && self.permits_to(filters, verdicts, blocking, kept)
            }
            None => false,
        }
    }

    /// Whether the story is permitted to this subscriber, apart from its targets.
    fn permits_to(
        &self,
        filters: &Filters,
        verdicts: &Verdicts,
        blocking: &[Name],
        kept: &KeptSubscriber,
    ) -> bool
        ensures { (h : History) (story : Story) → KeepsFacts self.now h → Judges verdicts.now filters.now h story → AreBlocking blocking.now h story → result ≡ permits_to h story (subscriber_of kept.now) }
    {
        if !kept.active {
            return false;
        }
        if has_other(blocking, kept.off.as_slice()) {
            return false;
        }
        self.any_permits(filters, verdicts, kept.products.as_slice())
    }

    /// Whether one of the products permits.
    fn any_permits(&self, filters: &Filters, verdicts: &Verdicts, products: &[Name]) -> bool
        ensures { (h : History) (story : Story) → KeepsFacts self.now h → Judges verdicts.now filters.now h story
            → result ≡ list_any (λ name. facts.product_permits h story (facts.product h name)) products.now }
    {
        for name in products.iter() {
            if self.permits(filters, verdicts, name) {
                return true;
            }
        }
        false
    }

    /// Whether the product permits. One that is not there does not.
    pub(crate) fn permits(&self, filters: &Filters, verdicts: &Verdicts, name: &Name) -> bool
        ensures { (h : History) (story : Story) → KeepsFacts self.now h → Judges verdicts.now filters.now h story
            → result ≡ facts.product_permits h story (facts.product h name.now) }
    {
        match self.products.get(name).copied() {
            Some(product) => product_permits(filters, verdicts, product),
            None => false,
        }
    }
}

/// Whether the product permits: one without a filter permits all, and a blocking one what its filter does not match.
fn product_permits(filters: &Filters, verdicts: &Verdicts, product: KeptProduct) -> bool
    ensures { (h : History) (story : Story) → Judges verdicts.now filters.now h story → result ≡ facts.permits h story (product_of product) }
{
    match product.filter {
        Some(filter) => permits_by(product.how, filters.matches_with(&filter, verdicts)),
        None => true,
    }
}

/// Whether a product permits where its filter matches, or not.
fn permits_by(how: How, matching: bool) -> bool
    ensures { result ≡ facts.permits_by how matching }
{
    match how {
        How::Permitting => matching,
        How::Blocking => !matching,
    }
}

/// Whether there are no targets, or the name is one of them.
pub(crate) fn is_target(name: &Name, targets: &[Name]) -> bool
    ensures { result ≡ facts.is_target name.now targets.now }
{
    targets.len() == 0 || name.is_among(targets)
}

/// Whether one of the names is not among the others.
fn has_other(names: &[Name], others: &[Name]) -> bool
    ensures { result ≡ list_any (λ name. not (is_in name others.now)) names.now }
{
    names.iter().any(|name| !name.is_among(others))
}
