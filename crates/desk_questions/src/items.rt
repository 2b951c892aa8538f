//! The items that a desk asks for.
ghost use Rattle.std.specs.Prelude.{◌≡◌, ◌&&◌, ◌-◌, ◌++◌, IfOk, OnOk, Some, min};
ghost use Rattle.std.specs.Option.{option_to_list};
ghost use Rattle.news_types.specs.History.{History};
ghost use Rattle.news_types.specs.Users.{is_user};
ghost use Rattle.news_types.specs.Desks.{is_desk};
ghost use Rattle.news_types.specs.Publications.{item_count};
ghost use Rattle.newsroom.specs.Stands.{Stands, StandsFor};
ghost use Rattle.told_objects.specs.Members.{objects};
ghost use Rattle.desk_views.specs.Items.{is_at, is_held, is_in_state, items_below, unknown};
ghost use Rattle.desk_questions.specs.Items.{is_there_if_given, item_row, line_members, line_wanted, rows_bytes, wanted_of};
ghost use Rattle.desk_questions.specs.Told.{items_told};

use crate::answer::DeskTold;
use crate::line::{ItemLine, line_of};
use news_types::{Bytes, Holder, Memory, Name, Place, State, Thing};
use newsroom::Newsroom;
use std::alloc::Global;
use told_objects::Object;

/// The most items that are told at once.
const MOST_ROWS: usize = 100;

/// What is asked for: what stands on that desk, is in that state and is held by that user, where these are given.
#[derive(Drop)]
pub(crate) struct Wanted {
    pub(crate) desk: Option<Name>,
    pub(crate) state: Option<State>,
    pub(crate) user: Option<Name>,
}

/// The newest items below a number that are asked for, or which thing that is named is not there.
pub(crate) fn tell_items(
    alloc: Global,
    newsroom: &Newsroom,
    wanted: &Wanted,
    below: u32,
) -> Result<DeskTold, Memory>
    requires { Stands newsroom.now }
    ensures { IfOk result (λ told. (h : History) → StandsFor newsroom.now h
        → told ≡ items_told h (wanted_of wanted.now) below) }
{
    if let Some(thing) = unknown(newsroom, wanted) {
        return Ok(DeskTold::Unknown(thing));
    }
    let rows = lines_below(alloc, newsroom, wanted, below)?;
    Ok(DeskTold::Found(items_object(alloc, &rows)?))
}

/// These items, as an object.
fn items_object(alloc: Global, rows: &[ItemLine]) -> Result<Bytes, Memory>
    ensures { IfOk result (λ bytes. bytes ≡ rows_bytes (objects line_members rows.now)) }
{
    Object::answering(alloc, "items")?
        .list("rows", rows)?
        .written()
}

/// The first thing that is named and is not there. It takes no memory.
fn unknown(newsroom: &Newsroom, wanted: &Wanted) -> Option<Thing>
    ensures { (h : History) → StandsFor newsroom.now h → result ≡ unknown h (wanted_of wanted.now) }
{
    if !has_desk(newsroom, &wanted.desk) {
        return Some(Thing::Desk);
    }
    if !has_user(newsroom, &wanted.user) {
        return Some(Thing::User);
    }
    None
}

/// Whether the desk is there, if one is given.
fn has_desk(newsroom: &Newsroom, desk: &Option<Name>) -> bool
    ensures { (h : History) → StandsFor newsroom.now h
        → result ≡ is_there_if_given (is_desk h) desk.now }
{
    match desk {
        Some(desk) => newsroom.rules().is_desk(desk),
        None => true,
    }
}

/// Whether the user is there, if one is given.
fn has_user(newsroom: &Newsroom, user: &Option<Name>) -> bool
    ensures { (h : History) → StandsFor newsroom.now h
        → result ≡ is_there_if_given (is_user h) user.now }
{
    match user {
        Some(user) => newsroom.rules().holds(user, None),
        None => true,
    }
}

/// What is told of the newest items below a number that are asked for, the newest first: at most a hundred.
fn lines_below(
    alloc: Global,
    newsroom: &Newsroom,
    wanted: &Wanted,
    below: u32,
) -> Result<Vec<ItemLine>, Memory>
    requires { Stands newsroom.now }
    ensures { IfOk result (λ rows. (h : History) → StandsFor newsroom.now h
        → objects line_members rows.items ≡ objects (item_row h) (items_below h (wanted_of wanted.now) below)) }
{
    let mut rows = Vec::new(alloc);
    let mut left = last_below(newsroom, below);
    while left > 0 && rows.len() < MOST_ROWS {
        add_wanted(&mut rows, newsroom, wanted, left)?;
        left -= 1;
    }
    Ok(rows)
}

/// The number of the newest item below this one, 0 where there is none.
fn last_below(newsroom: &Newsroom, below: u32) -> u32
    requires { Stands newsroom.now }
    ensures { (h : History) → StandsFor newsroom.now h → result ≡ min (item_count h) (below - 1) }
{
    newsroom.stories().item_count().min(below.saturating_sub(1))
}

/// Puts what is told of the item of that number behind these, if it is asked for.
fn add_wanted(
    rows: &mut Vec<ItemLine>,
    newsroom: &Newsroom,
    wanted: &Wanted,
    item: u32,
) -> Result<(), Memory>
    ensures { (h : History) → StandsFor newsroom.now h
        → OnOk result (rows.new.items ≡ rows.old.items ++ option_to_list (line_wanted h (wanted_of wanted.now) item)) }
{
    match wanted_line(newsroom, wanted, item)? {
        Some(line) => {
            rows.push(line)?;
            Ok(())
        }
        None => Ok(()),
    }
}

/// What is told of the item of that number, if it is asked for.
fn wanted_line(newsroom: &Newsroom, wanted: &Wanted, item: u32) -> Result<Option<ItemLine>, Memory>
    ensures { IfOk result (λ line. (h : History) → StandsFor newsroom.now h
        → line ≡ line_wanted h (wanted_of wanted.now) item) }
{
    let Some(state) = newsroom.stories().state(item, newsroom.moment()) else {
        return Ok(None);
    };
    let place = newsroom.rules().place(item);
    let holder = newsroom.rules().holder(item);
    let wire = newsroom.wires().wire(item);
    if !is_wanted(wanted, &place, state, &holder) {
        return Ok(None);
    }
    line_of(newsroom.stories(), item, state, place, holder, wire)
}

/// Whether an item so placed, in that state and so held is asked for.
fn is_wanted(wanted: &Wanted, place: &Option<Place>, now: State, holder: &Option<Holder>) -> bool
    ensures { let w = wanted_of wanted.now in
        result ≡ (is_at w.desk place.now && is_in_state w.state (Some now) && is_held w.user holder.now) }
{
    is_at(&wanted.desk, place) && is_in_state(&wanted.state, now) && is_held(&wanted.user, holder)
}

/// Whether a place is on the desk, if one is given.
fn is_at(desk: &Option<Name>, place: &Option<Place>) -> bool
    ensures { result ≡ is_at desk.now place.now }
{
    match desk {
        None => true,
        Some(desk) => match place {
            None => false,
            Some(place) => place.desk == *desk,
        },
    }
}

/// Whether a state is the one that is given, if one is.
fn is_in_state(wanted: &Option<State>, now: State) -> bool
    ensures { result ≡ is_in_state wanted.now (Some now) }
{
    match wanted {
        None => true,
        Some(wanted) => *wanted == now,
    }
}

/// Whether the user holds what is so held, if one is given.
fn is_held(user: &Option<Name>, holder: &Option<Holder>) -> bool
    ensures { result ≡ is_held user.now holder.now }
{
    match user {
        None => true,
        Some(user) => match holder {
            None => false,
            Some(holder) => holder.user == *user,
        },
    }
}
