//! The members of a package.
ghost use Rattle.std.specs.Prelude.{◌≡◌, ◌&&◌, ◌==◌, not, length, nat_lt, nat_le};
ghost use Rattle.std.specs.List.{list_all};
ghost use Rattle.news_types.specs.Names.{same};
ghost use Rattle.package_members.specs.Members.{is_apart_from, are_apart, are_items, make_package};

use news_types::Name;
use std::marker::Model;

/// The most members of a package.
pub const MOST_MEMBERS: usize = 64;

/// A member of a package: an item, and what it is there.
#[derive(Clone, Copy, PartialEq, Eq)]
pub struct Member {
    pub role: Name,
    pub item: u32,
}

/// Members, in order.
#[derive(Drop)]
pub struct Members {
    items: Vec<Member>,
}

impl Model for Members {
    ghost use Rattle.std.specs.Prelude.{List};
    ghost use Rattle.package_members.specs.declared.member.Member.{Member};

    ghost Value = { List Member };

    ghost view = { λ a. a.items.items };
}

impl Members {
    /// These members.
    pub fn of(items: Vec<Member>) -> Members
        ensures { result ≡ items.items }
    {
        Members { items }
    }

    /// The members.
    pub fn as_slice(&self) -> &[Member]
        ensures { result.now ≡ self.now }
    {
        self.items.as_slice()
    }
}

/// Whether a member has neither the role nor the item of the other.
fn is_apart(member: &Member, other: &Member) -> bool
    ensures { result ≡ is_apart_from member.now other.now }
{
    member.role != other.role && member.item != other.item
}

/// Whether a member has neither a role nor an item of these.
fn is_apart_from_all(member: &Member, others: &[Member]) -> bool
    ensures { result ≡ list_all (is_apart_from member.now) others.now }
{
    others.iter().all(|other| is_apart(member, other))
}

/// Whether no role and no item stands there twice.
fn stand_apart(members: &[Member]) -> bool
    ensures { result ≡ are_apart members.now }
{
    match members {
        [] => true,
        [first, rest @ ..] => is_apart_from_all(first, rest) && stand_apart(rest),
    }
}

/// Whether each is of an item.
fn are_of_items(members: &[Member]) -> bool
    ensures { result ≡ are_items members.now }
{
    members.iter().all(|member| member.item > 0)
}

/// Whether there are from 1 to 64.
fn are_few(members: &[Member]) -> bool
    ensures { result ≡ (nat_lt 0 (length members.now) && nat_le (length members.now) 64) }
{
    members.len() > 0 && members.len() <= MOST_MEMBERS
}

/// Whether a package can be made of these: 1 to 64, each of an item, no role and no item twice.
pub fn makes_package(members: &[Member]) -> bool
    ensures { result ≡ make_package members.now }
{
    are_few(members) && are_of_items(members) && stand_apart(members)
}
