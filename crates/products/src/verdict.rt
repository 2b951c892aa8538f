//! Why a subscriber is permitted a story, or is not.
ghost use Rattle.std.specs.Prelude.{◌≡◌, IfOk};
ghost use Rattle.std.specs.List.{find};
ghost use Rattle.news_types.specs.History.{History};
ghost use Rattle.news_types.specs.Products as facts;
ghost use Rattle.news_types.specs.declared.story.Story.{Story};
ghost use Rattle.feed_reasons.specs.Verdicts as reasons;
ghost use Rattle.products.specs.Keeps.{KeepsFacts};
ghost use Rattle.products.specs.Asked.{Judges};

use crate::permit::is_target;
use crate::table::{KeptSubscriber, Products};
use content_filters::{Filters, Verdicts};
use feed_reasons::{Refusal, Refusals, Verdict};
use news_types::{Memory, Name};

impl Products {
    /// What the rules say of the story for which the verdicts were made, with these targets, for one subscriber: the
    /// first cause that keeps the story away, or the product that permits it. It takes memory for refusals alone.
    pub fn verdict(
        &self,
        filters: &Filters,
        verdicts: &Verdicts,
        targets: &[Name],
        subscriber: &Name,
    ) -> Result<Verdict, Memory>
        ensures { IfOk result (λ told. (h : History) (story : Story) → KeepsFacts self.now h → Judges verdicts.now filters.now h story
            → told ≡ reasons.verdict h story targets.now subscriber.now) }
    {
        let Some(kept) = self.subscribers.get(subscriber) else {
            return Ok(Verdict::NoSubscriber);
        };
        if !kept.active {
            return Ok(Verdict::Inactive);
        }
        if !is_target(subscriber, targets) {
            return Ok(Verdict::NotTarget);
        }
        self.verdict_by_blocks(filters, verdicts, kept)
    }

    /// What the blocks, and then the products, say of the story for a subscriber that is active and a target.
    fn verdict_by_blocks(
        &self,
        filters: &Filters,
        verdicts: &Verdicts,
        kept: &KeptSubscriber,
    ) -> Result<Verdict, Memory>
        ensures { IfOk result (λ told. (h : History) (story : Story) → KeepsFacts self.now h → Judges verdicts.now filters.now h story
            → told ≡ reasons.by_blocks h story kept.now.products (reasons.block h story kept.now.off)) }
    {
        match filters.block(verdicts, kept.off.as_slice()) {
            Some(filter) => Ok(Verdict::Blocked { filter }),
            None => self.verdict_by_products(filters, verdicts, kept.products.as_slice()),
        }
    }

    /// What these products of a subscriber say of the story.
    fn verdict_by_products(
        &self,
        filters: &Filters,
        verdicts: &Verdicts,
        products: &[Name],
    ) -> Result<Verdict, Memory>
        ensures { IfOk result (λ told. (h : History) (story : Story) → KeepsFacts self.now h → Judges verdicts.now filters.now h story
            → told ≡ reasons.by_products h story products.now (find (reasons.passes h story) products.now)) }
    {
        match self.first_that_permits(filters, verdicts, products) {
            Some(product) => Ok(Verdict::Permitted { product }),
            None => Ok(Verdict::Refused {
                products: self.refusals(filters, verdicts, products)?,
            }),
        }
    }

    /// The first of the products that permits the story.
    fn first_that_permits(
        &self,
        filters: &Filters,
        verdicts: &Verdicts,
        products: &[Name],
    ) -> Option<Name>
        ensures { (h : History) (story : Story) → KeepsFacts self.now h → Judges verdicts.now filters.now h story
            → result ≡ find (reasons.passes h story) products.now }
    {
        for name in products.iter() {
            if self.permits(filters, verdicts, name) {
                return Some(*name);
            }
        }
        None
    }

    /// What is said of each of these products where none permits the story: its filter, and whether that matches.
    fn refusals(
        &self,
        filters: &Filters,
        verdicts: &Verdicts,
        products: &[Name],
    ) -> Result<Refusals, Memory>
        ensures { IfOk result (λ told. (h : History) (story : Story) → KeepsFacts self.now h → Judges verdicts.now filters.now h story
            → told ≡ reasons.refusals h story products.now) }
    {
        let mut refusals = Vec::new(self.alloc);
        for name in products.iter() {
            let filter = self.filter_of(name);
            let matches = matches_any(filters, verdicts, &filter);
            refusals.push(Refusal {
                product: *name,
                filter,
                matches,
            })?;
        }
        Ok(Refusals::of(refusals))
    }

    /// The filter of the product, if it has one.
    fn filter_of(&self, name: &Name) -> Option<Name>
        ensures { (h : History) → KeepsFacts self.now h → result ≡ reasons.filter_of (facts.product h name.now) }
    {
        match self.products.get(name).copied() {
            Some(product) => product.filter,
            None => None,
        }
    }
}

/// Whether the filter matches the story, if one is given.
fn matches_any(filters: &Filters, verdicts: &Verdicts, filter: &Option<Name>) -> bool
    ensures { (h : History) (story : Story) → Judges verdicts.now filters.now h story → result ≡ reasons.matches_any h story filter.now }
{
    match filter {
        Some(filter) => filters.matches_with(filter, verdicts),
        None => false,
    }
}
