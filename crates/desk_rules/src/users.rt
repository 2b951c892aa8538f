//! The first user, and sets of privileges.
ghost use Rattle.std.specs.Prelude.{◌≡◌};
ghost use Rattle.news_types.specs.Users.{bit_of, grants, admin};

use news_types::{Name, Privilege, Privileges};

/// Every privilege.
pub(crate) const ALL: Privileges = Privileges { bits: 1023 };

/// The user who is there from the start.
pub(crate) fn admin() -> Name
    ensures { result ≡ admin }
{
    match Name::read("admin") {
        Some(name) => name,
        None => unreachable!(),
    }
}

/// The bit of a privilege, from 0.
fn bit_of(privilege: Privilege) -> u32
    ensures { result ≡ bit_of privilege }
{
    match privilege {
        Privilege::Users => 0,
        Privilege::Desks => 1,
        Privilege::Filters => 2,
        Privilege::Subscribers => 3,
        Privilege::Ingest => 4,
        Privilege::Write => 5,
        Privilege::Publish => 6,
        Privilege::Kill => 7,
        Privilege::Unlock => 8,
        Privilege::Stop => 9,
    }
}

/// Whether the privilege is in the set.
pub(crate) fn grants(set: Privileges, privilege: Privilege) -> bool
    ensures { result ≡ grants set privilege }
{
    (set.bits as u32 >> bit_of(privilege)) & 1 == 1
}
