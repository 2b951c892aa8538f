//! What is noticed of a store that was opened.
ghost use Rattle.news_room.specs.Stands.{SomeBook};

use crate::limited::Limited;
use crate::limits::near_limits;
use news_io::Keeper;
use news_room::Room;
use newsroom::Newsroom;
use std::alloc::Global;

/// Hears of a store that a command has opened, before it does anything: for a person, beside the command's output.
pub trait Notices {
    /// The store holds this newsroom, and of these limits more than 80 of 100 are used, in the order in which limits are told.
    fn opened(&mut self, newsroom: &Newsroom, near: &[Limited]);
}

/// Hears nothing.
#[derive(Clone, Copy)]
pub struct Unnoticed;

impl Notices for Unnoticed {
    fn opened(&mut self, _newsroom: &Newsroom, _near: &[Limited]) {}
}

/// Tells of a room that was opened. Where there is no memory for it, of no limit.
pub fn notice_room<K: Keeper, N: Notices>(alloc: Global, room: &Room<K>, notices: &mut N)
    requires { SomeBook K.keeper room.now }
{
    match near_limits(alloc, room) {
        Ok(near) => notices.opened(room.newsroom(), &near),
        Err(_) => notices.opened(room.newsroom(), &[]),
    }
}
