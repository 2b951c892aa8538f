//! What answers what is asked.
use desk_routes::{Refusal, Response, RoomAsk};
use std::alloc::Global;

/// What a request is answered.
#[derive(Drop)]
pub struct HttpAnswer {
    pub response: Response,
    /// The place of the first stop that its turns kept, if they kept one.
    pub stop: Option<u64>,
}

/// What answers what is asked, one turn for each.
pub trait Answers {
    ghost use Rattle.std.specs.Prelude.{ℕ, Result, IfOk};
    ghost use Rattle.desk_routes.specs.declared.ask.RoomAsk.{RoomAsk};
    ghost use Rattle.desk_routes.specs.declared.ask.Refusal.{Refusal};
    ghost use Rattle.desk_routes.specs.Asking.{FitsRoomAsk};
    ghost use Rattle.feed_http.specs.declared.answers.HttpAnswer.{HttpAnswer};

    /// It can answer: each turn leaves it so.
    ghost is_ready: { Self → Type 0 };

    /// What a turn does: what answers before it, the reading of the clock, what is asked, or why that is refused, the
    /// answer, and what answers behind it.
    ghost turn: { Self → ℕ → Result RoomAsk Refusal → HttpAnswer → Self → Type 0 };

    /// Answers what is asked, or a refusal, at a reading of the clock, in seconds.
    fn answer(&mut self, alloc: Global, now: u64, read: Result<RoomAsk, Refusal>) -> HttpAnswer
        requires ready { is_ready self.old }
        requires fits { IfOk read FitsRoomAsk }
        ensures turn { turn self.old now read result self.new }
        ensures ready { is_ready self.new };

    /// Counts a response of this status to a request.
    fn count(&self, status: u16);
}
