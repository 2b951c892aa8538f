//! What a provider calls an item.
ghost use Rattle.std.specs.Prelude.{◌≡◌, ◌++◌};
ghost use Rattle.std.specs.Hash as fed;
ghost use Rattle.std.specs.Cmp.Rules.{comparing, hashing};
ghost use Rattle.std.proofs.Common.{rules};
ghost use Rattle.item_table.specs.Identities.{same_identity};

use news_types::{Name, Text};
use std::hash::{Hash, Hasher};

/// A provider's name, and the identity that it gave an item.
#[derive(Drop)]
pub(crate) struct Identity {
    pub(crate) provider: Name,
    pub(crate) text: Text,
}

impl PartialEq for Identity {
    ghost eq = { same_identity };

    ghost laws = { Prim.search (comparing, rules) };

    fn eq(&self, other: &Identity) -> bool {
        self.provider == other.provider && self.text == other.text
    }
}

impl Eq for Identity {
    ghost laws = { Prim.search (comparing, rules) };
}

impl Hash for Identity {
    ghost hash_input = { λ k. fed.slice fed.u8 k.provider ++ fed.slice fed.u8 k.text };

    ghost respects_eq = { Prim.search (hashing, rules) };

    fn hash<H: Hasher>(&self, state: &mut H) {
        self.provider.hash(state);
        self.text.as_str().as_bytes().hash(state);
    }
}
