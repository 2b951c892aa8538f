//! The table of users, desks and items.
ghost use Rattle.std.specs.Prelude.{◌≡◌, [], IfOk, Option, is_some, unwrap_or, slice_get, false};
ghost use Rattle.std.specs.HashMap.{get};
ghost use Rattle.news_types.specs.Names.{same};
ghost use Rattle.news_types.specs.History.{History};
ghost use Rattle.news_types.specs.Answers.{allowed};
ghost use Rattle.news_types.specs.Desks.{is_desk, is_member};
ghost use Rattle.news_types.specs.Users.{privileges};
ghost use Rattle.news_types.specs.Denial.{absent_in_place};
ghost use Rattle.news_types.specs.Items as items;
ghost use Rattle.news_types.specs.Publications as published;
ghost use Rattle.desk_rules.specs.Keys.{same_on, on_desk};
ghost use Rattle.desk_rules.specs.Spots.{numbered, place_at};
ghost use Rattle.desk_rules.specs.Keeps.{KeepsFacts};
ghost use Rattle.desk_rules.specs.Asked.{place_in, holder_in, IsHeldAs};

use crate::on_desk::OnDesk;
use crate::places::Places;
use crate::seats::{Seat, holder_of, number_of, seat_of};
use crate::users::{ALL, admin, grants};
use news_types::{Holder, Memory, Name, Place, Privilege, Privileges, Thing};
use std::alloc::Global;
use std::collections::HashMap;

/// Users, desks with their stages and members, and where each item stands and who holds it.
///
/// Every look-up goes by a hash or a number. An item's place is kept as its number, so that an item costs no more
/// than 80 bytes here.
#[derive(Drop)]
pub struct Desks {
    pub(crate) users: HashMap<Name, Privileges>,
    /// The number of stages of each desk.
    pub(crate) desks: HashMap<Name, u32>,
    pub(crate) places: Places,
    pub(crate) members: HashMap<OnDesk, bool>,
    pub(crate) seats: Vec<Seat>,
}

impl Desks {
    /// With one user, `admin`, who has every privilege, and nothing else.
    pub fn new(alloc: Global) -> Result<Desks, Memory>
        ensures { IfOk result (λ desks. KeepsFacts desks []) }
    {
        let mut users = HashMap::new(alloc);
        users.insert(admin(), ALL)?;
        Ok(Desks {
            users,
            desks: HashMap::new(alloc),
            places: Places::new(alloc),
            members: HashMap::new(alloc),
            seats: Vec::new(alloc),
        })
    }

    /// Whether the user is there and has the privilege, if one is named. It takes no memory.
    pub fn holds(&self, user: &Name, privilege: Option<Privilege>) -> bool
        ensures { (h : History) → KeepsFacts self.now h → result ≡ allowed h user.now privilege }
    {
        match (self.users.get(user).copied(), privilege) {
            (Some(privileges), Some(privilege)) => grants(privileges, privilege),
            (Some(_), None) => true,
            (None, _) => false,
        }
    }

    /// What the user may do, if it is there. It takes no memory.
    pub fn privileges(&self, user: &Name) -> Option<Privileges>
        ensures { (h : History) → KeepsFacts self.now h → result ≡ privileges h user.now }
    {
        self.users.get(user).copied()
    }

    /// Whether the desk is there. It takes no memory.
    pub fn is_desk(&self, desk: &Name) -> bool
        ensures { (h : History) → KeepsFacts self.now h → result ≡ is_desk h desk.now }
    {
        self.has_desk(desk)
    }

    /// Whether the user is a member of the desk. It takes no memory.
    pub fn is_member(&self, desk: &Name, user: &Name) -> bool
        ensures { (h : History) → KeepsFacts self.now h → result ≡ is_member h desk.now user.now }
    {
        self.has_member(desk, user)
    }

    /// What of the place is not there: the desk, or else the stage. It takes no memory.
    pub fn missing(&self, place: &Place) -> Option<Thing>
        ensures { (h : History) → KeepsFacts self.now h → result ≡ slice_get (absent_in_place h place.now.desk place.now.stage) 0 }
    {
        if !self.has_desk(&place.desk) {
            return Some(Thing::Desk);
        }
        if self.places.number(place).is_none() {
            return Some(Thing::Stage);
        }
        None
    }

    /// Where the item stands, if it stands on a desk. It takes no memory.
    pub fn place(&self, item: u32) -> Option<Place>
        ensures { (h : History) → KeepsFacts self.now h → result ≡ place_in (published.item h item) }
    {
        self.place_of(self.seat(item))
    }

    /// Who holds the item, if somebody does. It takes no memory.
    pub fn holder(&self, item: u32) -> Option<Holder>
        ensures { (h : History) → KeepsFacts self.now h → result ≡ holder_in (published.item h item) }
    {
        holder_of(self.seat(item))
    }

    /// What is kept of the item.
    pub(crate) fn seat(&self, item: u32) -> Option<Seat>
        ensures value { result ≡ numbered self.now.seats.items item }
        ensures held { (h : History) → KeepsFacts self.now h → IsHeldAs result (published.item h item) }
    {
        seat_of(&self.seats, item)
    }

    /// Where an item stands of which this is kept.
    fn place_of(&self, seat: Option<Seat>) -> Option<Place>
        ensures { result ≡ place_at self.now.places.list.items seat }
    {
        self.places.at(number_of(seat)?)
    }

    /// Whether the user is there.
    pub(crate) fn has_user(&self, user: &Name) -> bool
        ensures { result ≡ is_some (get same self.now.users user.now) }
    {
        self.users.contains_key(user)
    }

    /// Whether the desk is there.
    pub(crate) fn has_desk(&self, desk: &Name) -> bool
        ensures { result ≡ is_some (get same self.now.desks desk.now) }
    {
        self.desks.contains_key(desk)
    }

    /// Whether the desk has the stage.
    pub(crate) fn has_stage(&self, desk: &Name, stage: &Name) -> bool
        ensures { result ≡ is_some (get same_on self.now.places.numbers (on_desk desk.now stage.now)) }
    {
        self.places
            .number(&Place {
                desk: *desk,
                stage: *stage,
            })
            .is_some()
    }

    /// How many stages the desk has; none where it is not there.
    pub(crate) fn stage_count(&self, desk: &Name) -> u32
        ensures { result ≡ unwrap_or (get same self.now.desks desk.now) 0 }
    {
        self.desks.get(desk).copied().unwrap_or(0)
    }

    /// Whether the user is a member of the desk.
    pub(crate) fn has_member(&self, desk: &Name, user: &Name) -> bool
        ensures { result ≡ unwrap_or (get same_on self.now.members (on_desk desk.now user.now)) false }
    {
        let key = OnDesk {
            desk: *desk,
            name: *user,
        };
        self.members.get(&key).copied().unwrap_or(false)
    }
}
