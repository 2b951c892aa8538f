//! Attempts, receipts and resumes.
ghost use Rattle.std.specs.Prelude.{◌≡◌, ℕ, ◌+◌, ◌<◌, ◌&&◌, true, max, nat_lt, IsTrue, List, if◌then◌else◌, slice_index_or, vec_len};
ghost use Rattle.news_types.specs.declared.query.Due.{Due};
ghost use Rattle.news_types.specs.Names.{Bytes, same, is_in};
ghost use Rattle.news_types.specs.Delivery.{is_by};
ghost use Rattle.publish_queue.specs.Keeps.{Facts, Keeps, HasRoom, delivered, turn_of};

use crate::feed::Delivery;
use crate::queue::Queue;
use news_types::{Moment, Name};

impl Queue {
    /// Counts an attempt on a feed that is ready. It takes no memory.
    pub fn attempt(&mut self, subscriber: &Name, moment: Moment)
        requires { moment < 253402300800 }
        ensures keeps { (f : Facts) → Keeps self.old f → is_in subscriber.now f.names ≡ true → IsTrue (is_by moment (turn_of f subscriber.now)) →
            Keeps self.new (record f {
              tries = λ s. if same subscriber.now s then f.tries s + 1 else f.tries s;
              tried = λ s. if same subscriber.now s then moment else f.tried s;
            }) }
        ensures room { (number release : ℕ) (due : List Due) → HasRoom self.old number release due → HasRoom self.new number release due }
    {
        if let Some(at) = self.feeds.find(subscriber) {
            let stands = self.feeds.feeds[at].delivery;
            let delivery = Delivery {
                acked: stands.acked,
                tries: stands.tries.saturating_add(1),
                tried: moment,
            };
            self.deliver(at, delivery);
        }
    }

    /// Takes a receipt for the first entries, so many, of which some were not acknowledged. It
    /// takes no memory.
    pub fn receipt(&mut self, subscriber: &Name, n: u32)
        ensures keeps { (f : Facts) → Keeps self.old f → is_in subscriber.now f.names ≡ true → f.acked subscriber.now < n →
            Keeps self.new (record f {
              acked = λ s. if same subscriber.now s then max n (f.acked s) else f.acked s;
              tries = λ s. if same subscriber.now s && nat_lt (f.acked s) n then 0 else f.tries s;
            }) }
        ensures room { (number release : ℕ) (due : List Due) → HasRoom self.old number release due → HasRoom self.new number release due }
    {
        if let Some(at) = self.feeds.find(subscriber) {
            let stands = self.feeds.feeds[at].delivery;
            let delivery = Delivery {
                acked: n,
                tries: 0,
                tried: stands.tried,
            };
            self.deliver(at, delivery);
        }
    }

    /// Lets a feed be pushed again at once. It takes no memory.
    pub fn resume(&mut self, subscriber: &Name)
        ensures keeps { (f : Facts) → Keeps self.old f → is_in subscriber.now f.names ≡ true →
            Keeps self.new (record f { tries = λ s. if same subscriber.now s then 0 else f.tries s }) }
        ensures room { (number release : ℕ) (due : List Due) → HasRoom self.old number release due → HasRoom self.new number release due }
    {
        if let Some(at) = self.feeds.find(subscriber) {
            let delivery = self.feeds.feeds[at].delivery.resumed();
            self.deliver(at, delivery);
        }
    }

    // Says how the delivery of the feed at that place stands.
    fn deliver(&mut self, at: usize, delivery: Delivery)
        requires { at < vec_len self.old.feeds.feeds }
        ensures keeps { (f : Facts) (to : Bytes) → Keeps self.old f → ((d : Bytes) → slice_index_or self.old.feeds.names.items at d ≡ to) →
            Keeps self.new (delivered delivery to f) }
        ensures room { (number release : ℕ) (due : List Due) → HasRoom self.old number release due → HasRoom self.new number release due }
    {
        self.feeds.deliver(at, delivery);
    }
}
