//! What an entry does to the feeds.
ghost use Rattle.std.specs.Prelude.{◌≡◌, ◌≤◌, ℕ};
ghost use Rattle.news_types.specs.History.{History, moment as last_moment};
ghost use Rattle.publish_queue.specs.Keeps.{HasRoom};
ghost use Rattle.publish_queue.specs.Order.{Differ};
ghost use Rattle.publish_queue.specs.Many.{names_in};
ghost use Rattle.story_tables.specs.Feeds.{KeepsQueue, FeedsFor, HasFeedRoom, Issues, Retracts};

use news_types::{Due, Moment, Name};
use publish_queue::{Queue, Span};

/// What an entry does to the feeds, apart from their going on to its moment.
#[derive(Drop)]
pub(crate) enum FeedStep {
    /// A subscriber is added.
    Subscriber(Name),
    /// A feed is pushed again.
    Resume(Name),
    /// A publication is due to these.
    Publish {
        number: u32,
        release: Moment,
        due: Vec<Due>,
    },
    /// The publications of these numbers are withdrawn for those to whom they are not released by the moment of the entry,
    /// where they are released within the spans, and one at that moment is due to these.
    TakeBack {
        numbers: Vec<u32>,
        spans: Vec<Span>,
        number: u32,
        due: Vec<Due>,
    },
    /// The publication of that number, which waits for its release, is withdrawn. It is released to each within its span.
    Withdraw {
        number: u32,
        release: Moment,
        spans: Vec<Span>,
    },
    Nothing,
}

/// Does it, and goes on to the moment. It takes no memory.
pub(crate) fn go(queue: &mut Queue, step: FeedStep, moment: Moment)
    requires { HasFeedRoom queue.old moment step }
    ensures { (h g : History) → KeepsQueue queue.old h (last_moment h) → FeedsFor step h g → last_moment h ≤ moment → last_moment g ≡ moment → KeepsQueue queue.new g moment }
{
    match step {
        FeedStep::Subscriber(name) => {
            queue.add_subscriber(name);
            queue.advance(moment);
        }
        FeedStep::Resume(name) => {
            queue.resume(&name);
            queue.advance(moment);
        }
        FeedStep::Publish {
            number,
            release,
            due,
        } => publish(queue, number, release, &due, moment),
        FeedStep::TakeBack {
            numbers,
            spans,
            number,
            due,
        } => take_back(queue, &numbers, &spans, number, &due, moment),
        FeedStep::Withdraw {
            number,
            release,
            spans,
        } => {
            queue.withdraw(number, release, &spans);
            queue.advance(moment);
        }
        FeedStep::Nothing => queue.advance(moment),
    }
}

/// Adds a publication that is due to these, and goes on to the moment. It takes no memory.
fn publish(queue: &mut Queue, number: u32, release: Moment, due: &[Due], moment: Moment)
    requires room { HasRoom queue.old number release due.now }
    requires differ { Differ (names_in due.now) }
    ensures { (h g : History) → KeepsQueue queue.old h (last_moment h) → Issues number release due.now h g → last_moment h ≤ moment → KeepsQueue queue.new g moment }
{
    queue.add(number, release, due);
    queue.advance(moment);
}

/// Goes on to the moment, withdraws what waits of these numbers and is released within the spans, and adds a publication at the
/// moment that is due to these. It takes no memory.
fn take_back(
    queue: &mut Queue,
    numbers: &[u32],
    spans: &[Span],
    number: u32,
    due: &[Due],
    moment: Moment,
)
    requires room { HasRoom queue.old number moment due.now }
    requires differ { Differ (names_in due.now) }
    ensures { (h g : History) → KeepsQueue queue.old h (last_moment h) → Retracts numbers.now spans.now number due.now h g → last_moment h ≤ moment → last_moment g ≡ moment → KeepsQueue queue.new g moment }
{
    queue.advance(moment);
    queue.take_back(numbers, spans);
    queue.add(number, moment, due);
}
