//! Frames of feeds.
ghost use Rattle.std.specs.Prelude.{◌≡◌, IfOk};
ghost use Rattle.news_types.specs.History.{History};
ghost use Rattle.news_types.specs.Frames.{frame_bytes_at};
ghost use Rattle.feed_frames.specs.Writer.{the_writer};
ghost use Rattle.newsroom.specs.Stands.{StandsFor, HasEntry, store_of};

use crate::newsroom::Newsroom;
use feed_frames::write_frame;
use news_types::{Bytes, Memory, Name};

impl Newsroom {
    /// The frame of entry `k` of a subscriber's feed, in the subscriber's format. An error is only want of memory.
    pub fn frame(&self, subscriber: &Name, k: u32) -> Result<Bytes, Memory>
        requires { HasEntry self.now subscriber.now k }
        ensures { IfOk result (λ bytes. (h : History) → StandsFor self.now h → bytes ≡ frame_bytes_at (the_writer (store_of self.now)) h subscriber.now k) }
    {
        let Some(format) = self.rules.format(subscriber) else {
            unreachable!()
        };
        let publication = self.stories.dispatched(subscriber, k)?;
        let Some(publication) = publication else {
            unreachable!()
        };
        let bytes = write_frame(self.alloc, self.store, format, subscriber, k, &publication)?;
        Ok(bytes)
    }
}
