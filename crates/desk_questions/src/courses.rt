//! What becomes of a publication for a subscriber.
ghost use Rattle.std.specs.Prelude.{◌≡◌, ◌≤◌, true, Some, option_map};
ghost use Rattle.news_types.specs.Names.{is_in};
ghost use Rattle.news_types.specs.History.{History, moment};
ghost use Rattle.news_types.specs.Products.{subscribers};
ghost use Rattle.news_types.specs.Publications.{standing};
ghost use Rattle.news_types.specs.Delivery.{acked};
ghost use Rattle.feed_reasons.specs.Courses.{course, due_of, numbered, place, sent_as};
ghost use Rattle.desk_records.specs.Dues.{due_fact};
ghost use Rattle.newsroom.specs.Stands.{StandsFor};
ghost use Rattle.desk_questions.specs.Publications.{destiny, destined_in};

use desk_records::DueFact;
use feed_reasons::Course;
use news_types::{Moment, Name};
use newsroom::Newsroom;

/// What becomes of a publication for one to whom it was made due, with its release for it.
#[derive(Clone, Copy)]
pub(crate) struct Addressee {
    pub(crate) subscriber: Name,
    pub(crate) release: Moment,
    pub(crate) course: Course,
}

/// What becomes of the publication of that number for the subscriber. It takes no memory.
pub fn course(newsroom: &Newsroom, publication: u32, subscriber: &Name) -> Course
    ensures { (h : History) → StandsFor newsroom.now h → result ≡ course h publication subscriber.now }
{
    match newsroom.dues().due(publication, subscriber) {
        Some(fact) => course_by(newsroom, publication, subscriber, fact),
        None => Course::NotDue,
    }
}

/// What becomes of the publication of that number for the subscriber, if it was made due to it. It takes no memory.
pub(crate) fn destiny(newsroom: &Newsroom, publication: u32, subscriber: &Name) -> Option<Addressee>
    ensures { (h : History) → StandsFor newsroom.now h
        → option_map destined_in result ≡ destiny h publication subscriber.now }
{
    let Some(fact) = newsroom.dues().due(publication, subscriber) else {
        return None;
    };
    Some(Addressee {
        subscriber: *subscriber,
        release: fact.release,
        course: course_by(newsroom, publication, subscriber, fact),
    })
}

/// What becomes of a publication that was so made due.
fn course_by(newsroom: &Newsroom, publication: u32, subscriber: &Name, fact: DueFact) -> Course
    ensures { (h : History) → StandsFor newsroom.now h → Some fact ≡ due_fact h publication subscriber.now
        → result ≡ course h publication subscriber.now }
{
    if !fact.stands {
        return Course::TakenBack;
    }
    if newsroom.moment() < fact.release {
        return Course::Waits {
            until: fact.release,
        };
    }
    sent(newsroom, publication, subscriber, fact.release)
}

/// The entry of a publication that stands with that release, which has come, and whether it is acknowledged.
fn sent(newsroom: &Newsroom, publication: u32, subscriber: &Name, release: Moment) -> Course
    ensures { (h : History) → StandsFor newsroom.now h → due_of subscriber.now (numbered publication (standing h)) ≡ Some release
        → release ≤ moment h → result ≡ sent_as h subscriber.now (place h subscriber.now publication) }
{
    let k = newsroom
        .stories()
        .entry(subscriber, publication, release)
        .unwrap_or(0);
    Course::Sent {
        k,
        acked: k <= acked(newsroom, subscriber),
    }
}

/// The greatest receipt of a subscriber.
fn acked(newsroom: &Newsroom, subscriber: &Name) -> u32
    ensures { (h : History) → StandsFor newsroom.now h
        → is_in subscriber.now (subscribers h) ≡ true → result ≡ acked h subscriber.now }
{
    match newsroom.stories().feed_facts(subscriber) {
        Some(facts) => facts.acked,
        None => 0,
    }
}
