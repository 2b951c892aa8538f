//! Questions of a desk are answered.
ghost use Rattle.std.specs.Prelude.{◌≡◌, IfOk};
ghost use Rattle.news_types.specs.Books.{Book};
ghost use Rattle.news_room.specs.Stands.{Stands, SomeBook};
ghost use Rattle.desk_questions.specs.Told.{desk_told};

use crate::items::{Wanted, tell_items};
use crate::published::tell_publications;
use crate::reach::tell_reach;
use crate::things::tell_things;
use desk_views::DeskQuestion;
use news_io::Keeper;
use news_room::Room;
use news_types::{Bytes, Memory, Thing};
use std::alloc::Global;

/// What a question of the desk is answered.
#[derive(Drop)]
pub enum DeskTold {
    /// As one JSON object without a line end, with keys in byte order.
    Found(Bytes),
    /// A thing that it names is not there.
    Unknown(Thing),
}

/// The answer to a question of a desk, from the list as it is. An error is only want of memory.
///
/// Items are looked up one by one, from the newest below the number that is given down to the hundredth that is asked for. Of
/// stories only the headlines and sluglines of these are copied. Pages of things and of publications are found by binary search.
pub fn answer_desk<K: Keeper>(
    alloc: Global,
    room: &Room<K>,
    question: &DeskQuestion,
) -> Result<DeskTold, Memory>
    requires { SomeBook K.keeper room.now }
    ensures { IfOk result (λ told. (b : Book) → Stands K.keeper room.now b → told ≡ desk_told b.list question.now) }
{
    let newsroom = room.newsroom();
    match question {
        DeskQuestion::Items {
            desk,
            below,
            state,
            user,
        } => {
            let wanted = Wanted {
                desk: *desk,
                state: *state,
                user: *user,
            };
            tell_items(alloc, newsroom, &wanted, *below)
        }
        DeskQuestion::Things { of, after } => tell_things(alloc, newsroom, *of, after),
        DeskQuestion::Reach { item, targets } => {
            tell_reach(alloc, newsroom, *item, targets.as_slice())
        }
        DeskQuestion::Publications { item, after } => {
            tell_publications(alloc, newsroom, *item, *after)
        }
    }
}
