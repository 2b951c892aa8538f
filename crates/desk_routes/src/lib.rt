//! What a request of HTTP asks, who may ask it, and what it is answered.
//!
//! A request has a route by its method and its path. The route, the path's names and numbers and the body say what is
//! asked, or why the request is refused before anything is asked. Each thing asked wants a right of its caller. What the
//! newsroom says to it has a status and a body.
#![tactic(auto)]

mod ask;
mod laws;
mod path;
mod response;
mod rights;
mod route;

pub use ask::{Asking, HttpAsk, HttpAsked, Refusal, RoomAsk, WireAsk, WireMembers};
pub use laws::paths_law;
pub use response::{
    Media, Notice, Response, notify, refuse, respond_answer, respond_denial, respond_reply,
    status_of_denial, told_as, told_metrics,
};
pub use rights::{Gate, Right, allows, gate_of, right_of};
pub use route::{Route, Routes};
