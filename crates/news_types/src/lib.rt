//! The records of a newsroom: names, texts, stories, commands, entries and what is answered.
#![tactic(auto)]

mod clock;
mod command;
mod denial;
mod entry;
mod laws;
mod lists;
mod name;
mod order;
mod query;
mod rules;
mod stands;
mod story;
mod text;
mod words;

pub use clock::{offset_seconds, two_digits};
pub use command::Command;
pub use denial::Denial;
pub use entry::{Act, Entry, Moment, Reply};
pub use laws::equality_law;
pub use lists::{Names, Texts};
pub use name::{Name, is_name_letter};
pub use order::insert_in_order;
pub use query::{
    Answer, Due, FeedRow, FeedRows, FeedState, Holder, ItemRow, Publication, Query, QueueRow,
    QueueRows, Ready,
};
pub use rules::{Place, RouteAction, Rule, Scheme, Statement, Statements};
pub use stands::StandsFor;
pub use story::{Incoming, Story};
pub use text::{Bytes, Memory, Text};
pub use words::{
    Action, Field, Format, How, Kind, Media, Op, Privilege, Privileges, PubStatus, State, Thing,
};
