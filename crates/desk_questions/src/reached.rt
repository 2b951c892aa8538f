//! What is told of a subscriber whom a publication would reach or not.
ghost use Rattle.std.specs.Prelude.{◌≡◌, IfOk, map};
ghost use Rattle.told_objects.specs.Members.{list};
ghost use Rattle.told_objects.specs.Seen.{seen};
ghost use Rattle.desk_questions.specs.Reach.{cause, filtered, reach_row, reached_in, reason_word, refusal_in, refusal_row, verdict_row};

use feed_reasons::{Refusal, Verdict};
use news_types::Name;
use std::alloc::{AllocError, Global};
use told_objects::{Object, Shown};

/// What holds of a subscriber: what the rules say of the story, and whether something of the item is due to it already.
#[derive(Drop)]
pub(crate) struct ReachLine {
    pub(crate) subscriber: Name,
    pub(crate) verdict: Verdict,
    pub(crate) had: bool,
}

impl Shown for ReachLine {
    ghost members = { λ line. reach_row (reached_in line) };

    fn shown(&self, alloc: Global) -> Result<Object, AllocError> {
        let told = Object::new(alloc)
            .flag("had", self.had)?
            .text("reason", word_of_reason(&self.verdict))?
            .text("subscriber", self.subscriber.as_str())?;
        caused(alloc, told, &self.verdict)
    }
}

/// What a verdict says, and what it names, as an object.
pub fn verdict_object(alloc: Global, verdict: &Verdict) -> Result<Object, AllocError>
    ensures { IfOk result (λ told. seen told ≡ verdict_row verdict.now) }
{
    let told = Object::new(alloc).text("reason", word_of_reason(verdict))?;
    caused(alloc, told, verdict)
}

/// The word of what a verdict says.
fn word_of_reason(verdict: &Verdict) -> &'static str
    ensures { result.now ≡ reason_word verdict.now }
{
    match verdict {
        Verdict::NoSubscriber => "no_subscriber",
        Verdict::Inactive => "inactive",
        Verdict::NotTarget => "not_target",
        Verdict::Blocked { .. } => "blocked",
        Verdict::Permitted { .. } => "permitted",
        Verdict::Refused { .. } => "refused",
    }
}

/// The object with what a verdict names.
#[tactic(auto, unfolding(crate::specs::Reach::cause))]
fn caused(alloc: Global, told: Object, verdict: &Verdict) -> Result<Object, AllocError>
    ensures { IfOk result (λ more. seen more ≡ cause verdict.now (seen told)) }
{
    match verdict {
        Verdict::Blocked { filter } => told.text("filter", filter.as_str()),
        Verdict::Permitted { product } => told.text("product", product.as_str()),
        Verdict::Refused { products } => refused(alloc, told, products.as_slice()),
        Verdict::NoSubscriber | Verdict::Inactive | Verdict::NotTarget => Ok(told),
    }
}

/// The object with the products that do not permit a story.
fn refused(alloc: Global, told: Object, refusals: &[Refusal]) -> Result<Object, AllocError>
    ensures { IfOk result (λ more. seen more ≡ list "products" refusal_row refusals.now (seen told)) }
{
    let rows = refusal_lines(alloc, refusals)?;
    told.list("products", &rows)
}

/// A product that does not permit a story.
#[derive(Clone, Copy)]
struct RefusalLine {
    product: Name,
    filter: Option<Name>,
    matches: bool,
}

impl Shown for RefusalLine {
    ghost members = { λ line. refusal_row (refusal_in line) };

    fn shown(&self, alloc: Global) -> Result<Object, AllocError> {
        filtered(Object::new(alloc), &self.filter)?
            .flag("matches", self.matches)?
            .text("product", self.product.as_str())
    }
}

/// The object with the filter of a product, null where it has none.
#[tactic(auto, unfolding(crate::specs::Reach::filtered))]
fn filtered(told: Object, filter: &Option<Name>) -> Result<Object, AllocError>
    ensures { IfOk result (λ more. seen more ≡ filtered filter.now (seen told)) }
{
    match filter {
        None => told.null("filter"),
        Some(filter) => told.text("filter", filter.as_str()),
    }
}

/// These refusals, as they are told.
fn refusal_lines(alloc: Global, refusals: &[Refusal]) -> Result<Vec<RefusalLine>, AllocError>
    ensures { IfOk result (λ rows. map refusal_in rows.items ≡ refusals.now) }
{
    let mut rows = Vec::new(alloc);
    for refusal in refusals {
        rows.push(RefusalLine {
            product: refusal.product,
            filter: refusal.filter,
            matches: refusal.matches,
        })?;
    }
    Ok(rows)
}
