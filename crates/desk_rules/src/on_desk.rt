//! Names of things of a desk.
ghost use Rattle.std.specs.Prelude.{◌≡◌, ◌++◌};
ghost use Rattle.std.specs.Hash as fed;
ghost use Rattle.std.specs.Cmp.Rules.{comparing, hashing};
ghost use Rattle.std.proofs.Common.{rules};
ghost use Rattle.desk_rules.specs.Keys.{same_on};

use news_types::Name;
use std::hash::{Hash, Hasher};

/// A name on a desk: of one of its stages, or of one of its members.
#[derive(Clone, Copy)]
pub(crate) struct OnDesk {
    pub(crate) desk: Name,
    pub(crate) name: Name,
}

impl PartialEq for OnDesk {
    ghost eq = { same_on };

    ghost laws = { Prim.search (comparing, rules) };

    fn eq(&self, other: &OnDesk) -> bool {
        self.desk == other.desk && self.name == other.name
    }
}

impl Eq for OnDesk {
    ghost laws = { Prim.search (comparing, rules) };
}

impl Hash for OnDesk {
    ghost hash_input = { λ k. fed.slice fed.u8 k.desk ++ fed.slice fed.u8 k.name };

    ghost respects_eq = { Prim.search (hashing, rules) };

    fn hash<H: Hasher>(&self, state: &mut H) {
        self.desk.hash(state);
        self.name.hash(state);
    }
}
