//! A shared room as what answers what is asked.
use crate::serving::Serving;
use crate::watching::{provider_of, watch_response, watch_turn};
use desk_routes::{Refusal, RoomAsk};
use feed_http::{Answers, HttpAnswer};
use news_io::Keeper;
use news_room::Room;
use room_lock::{Pass, Shared};
use server_watch::Watch;
use std::alloc::Global;
use std::sync::Wait;

/// A shared room, and a pass that is at hand between two turns.
#[derive(Drop)]
pub(crate) struct Turns<'a, K: Keeper + Drop, R: Wait> {
    pub(crate) rt: &'a R,
    /// What counts the answers.
    pub(crate) watch: &'a Watch,
    pub(crate) shared: &'a Shared<Room<K>>,
    pub(crate) pass: Option<Pass>,
}

impl<'a, K: Keeper + Drop, R: Wait> Answers for Turns<'a, K, R> {
    ghost use Rattle.shared_connections.specs.Passes.{HasPass, TakesTurn};

    ghost is_ready = { λ turns. HasPass turns.shared.now turns.pass };

    ghost turn = { λ old now read answer new. TakesTurn K.keeper old.shared.now new.shared.now old.pass new.pass now read answer };

    fn answer(&mut self, alloc: Global, now: u64, read: Result<RoomAsk, Refusal>) -> HttpAnswer {
        let counts = self.watch.counts(self.rt).ok();
        let provider = provider_of(&read);
        let mut serving = Serving::new(alloc, read, now, counts);
        let pass = self.pass.take().unwrap();
        let pass = self.shared.with_turn(self.rt, pass, &mut serving);
        self.pass = Some(pass);
        watch_turn(
            self.rt,
            self.watch,
            provider,
            now,
            serving.answer.response.status,
        );
        serving.answer
    }

    fn count(&self, status: u16) {
        watch_response(self.rt, self.watch, status);
    }
}
