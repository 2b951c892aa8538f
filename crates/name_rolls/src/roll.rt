//! Names in byte order.
ghost use Rattle.std.specs.Prelude.{◌≡◌, ◌≤◌, ◌∷◌, [], List, OnOk, take, drop, vec_len};
ghost use Rattle.std.specs.List.{filter};
ghost use Rattle.news_types.specs.Names.{Bytes};
ghost use Rattle.news_types.specs.Answers.{in_order};
ghost use Rattle.desk_views.specs.Things.{is_behind};
ghost use Rattle.name_rolls.specs.Rolls.{HasPlace};

use news_types::{Memory, Name};
use std::alloc::Global;

/// How many names a page has at most.
const PAGE: usize = 100;

/// Names in byte order.
#[derive(Drop)]
pub(crate) struct Roll {
    pub(crate) names: Vec<Name>,
}

impl Roll {
    /// With no name.
    pub(crate) fn new(alloc: Global) -> Roll
        ensures { result.names.items ≡ [] }
    {
        Roll {
            names: Vec::new(alloc),
        }
    }

    /// Takes the memory for one more name.
    pub(crate) fn reserve(&mut self) -> Result<(), Memory>
        ensures alike { self.new.names.items ≡ self.old.names.items }
        ensures room { OnOk result (HasPlace self.new) }
    {
        self.names.reserve(1)?;
        Ok(())
    }

    /// Puts a name at its place. It takes no memory.
    pub(crate) fn put(&mut self, name: Name)
        requires { HasPlace self.old }
        ensures { (names : List Bytes) → self.old.names.items ≡ in_order names → self.new.names.items ≡ in_order (name ∷ names) }
    {
        let place = self.names.partition_point(|other| *other < name);
        let _ = self.names.insert(place, name);
    }

    /// The first hundred behind a name, or of all. It takes no memory.
    pub(crate) fn page(&self, after: &Option<Name>) -> &[Name]
        ensures { (names : List Bytes) → self.now.names.items ≡ in_order names → result.now ≡ take 100 (filter (is_behind after.now) (in_order names)) }
    {
        let rest = &self.names[self.first_behind(after)..];
        &rest[..rest.len().min(PAGE)]
    }

    /// The place of the first name that stands behind this one, or of the first of all.
    fn first_behind(&self, after: &Option<Name>) -> usize
        ensures inside { result ≤ vec_len self.now.names }
        ensures behind { (names : List Bytes) → self.now.names.items ≡ in_order names → drop result self.now.names.items ≡ filter (is_behind after.now) (in_order names) }
    {
        match after {
            Some(after) => self.names.partition_point(|other| *other <= *after),
            None => 0,
        }
    }
}
