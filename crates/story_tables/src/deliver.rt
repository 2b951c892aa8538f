//! What the server's own acts do to the feeds, and which feed is pushed next.
ghost use Rattle.std.specs.Prelude.{◌≡◌, ◌<◌, ◌≤◌, ◌+◌, ◌∷◌, ◌==◌, ◌&&◌, ℕ, true, MatchResult, nat_lt, None, Some};
ghost use Rattle.news_types.specs.History.{History, moment as last_moment};
ghost use Rattle.news_types.specs.Names.{is_in};
ghost use Rattle.news_types.specs.Products.{subscribers};
ghost use Rattle.news_types.specs.declared.entry.Act.{Act};
ghost use Rattle.news_types.specs.declared.entry.Act.TheVariants.{Attempt, Receipt};
ghost use Rattle.news_types.specs.Delivery.{acked, is_ready, choice};
ghost use Rattle.news_types.specs.Legal.{some_waits};
ghost use Rattle.news_types.specs.Denial.{receipt_denial};
ghost use Rattle.news_types.specs.Outcome.{entry_of};
ghost use Rattle.story_tables.specs.Keeps.{KeepsStories};
ghost use Rattle.story_tables.specs.Delivering.{IsQuiet, is_now, judged};

use crate::stories::Stories;
use news_types::{Denial, Moment, Name, Ready, Thing};
use publish_queue::FeedFacts;

impl Stories {
    /// Goes on to the moment of an act that changes no feed. It takes no memory.
    pub fn advance(&mut self, moment: Moment)
        ensures { (h : History) (act : Act) → KeepsStories self.old h → last_moment h ≤ moment → IsQuiet act → KeepsStories self.new (entry_of moment act ∷ h) }
    {
        self.queue.advance(moment);
    }

    /// Counts an attempt on a feed that is ready. It takes no memory.
    pub fn attempt(&mut self, subscriber: &Name, moment: Moment)
        requires { moment < 253402300800 }
        ensures { (h : History) (k : ℕ) → KeepsStories self.old h → last_moment h ≤ moment → is_ready h subscriber.now moment ≡ true → KeepsStories self.new (entry_of moment (Attempt subscriber.now k) ∷ h) }
    {
        self.queue.attempt(subscriber, moment);
        self.queue.advance(moment);
    }

    /// Takes a receipt that raises what is acknowledged. It takes no memory.
    pub fn receipt(&mut self, subscriber: &Name, n: u32, moment: Moment)
        ensures { (h : History) → KeepsStories self.old h → last_moment h ≤ moment → acked h subscriber.now < n → is_in subscriber.now (subscribers h) ≡ true → KeepsStories self.new (entry_of moment (Receipt subscriber.now n) ∷ h) }
    {
        self.queue.receipt(subscriber, n);
        self.queue.advance(moment);
    }

    /// Whether a publication waits whose release is past the list's moment and not past this one. It takes no memory.
    pub fn waits_until(&self, moment: Moment) -> bool
        ensures { (h : History) → KeepsStories self.now h → result ≡ some_waits h moment }
    {
        self.queue.waits_until(moment)
    }

    /// Which of the feeds is pushed next, or when one may be. It takes no memory.
    pub fn next_ready(&self, names: &[Name], moment: Moment) -> Ready
        ensures { (h : History) → KeepsStories self.now h → result ≡ choice h names.now moment }
    {
        self.queue.next_ready(names, moment)
    }

    /// Whether the feed is ready at the moment, and its next entry is this one. It takes no memory.
    pub fn is_next(&self, subscriber: Name, k: u32, moment: Moment) -> bool
        ensures { (h : History) → KeepsStories self.now h → result ≡ (is_ready h subscriber moment && k == acked h subscriber + 1) }
    {
        is_now(self.next_ready(&[subscriber], moment), k)
    }

    /// Whether a receipt raises what is acknowledged, or why it is denied. It takes no memory.
    pub fn judge_receipt(&self, subscriber: &Name, n: u32) -> Result<bool, Denial>
        ensures { (h : History) → KeepsStories self.now h → MatchResult result (λ raises. (receipt_denial h subscriber.now n ≡ None) × (raises ≡ nat_lt (acked h subscriber.now) n)) (λ denial. receipt_denial h subscriber.now n ≡ Some denial) }
    {
        judge(self.feed_facts(subscriber), n)
    }
}

/// Whether a feed is to be pushed now, from this entry on.
fn is_now(ready: Ready, k: u32) -> bool
    ensures { result ≡ is_now ready k }
{
    match ready {
        Ready::Now { k: next, .. } => k == next,
        Ready::Later { .. } => false,
    }
}

/// Whether a receipt raises what is acknowledged of a feed that so stands, or why it is denied.
fn judge(facts: Option<FeedFacts>, n: u32) -> Result<bool, Denial>
    ensures { result ≡ judged facts n }
{
    let Some(facts) = facts else {
        return Err(Denial::UnknownThing {
            thing: Thing::Subscriber,
        });
    };
    if n <= facts.length {
        return Ok(facts.acked < n);
    }
    Err(Denial::ReceiptAhead {
        length: facts.length,
    })
}
