//! What answers the stories of a wire, or items.
ghost use Rattle.news_types.specs.declared.entry.Entry.{Entry};
ghost use Rattle.news_types.specs.Names.{Bytes};
ghost use Rattle.std.specs.Prelude.{List, Option};

use crate::texts::request_answered;
use agency_runs::{Receiving, Told, read_at, too_long};
use agency_wires::Found;
use line_run::Stopped;
use news_io::{Clock, Keeper};
use news_room::Room;
use news_types::{Incoming, Name};
use std::alloc::Global;
use wire_run::Ingesting;

/// A room, with the clock that is read once for each story, and the provider that the stories come from.
#[derive(Drop)]
pub(crate) struct WireDesk<'a, K, C> {
    pub(crate) alloc: Global,
    pub(crate) room: &'a mut Room<K>,
    pub(crate) clock: &'a mut C,
    pub(crate) provider: Name,
}

impl<K: Keeper, C: Clock> Ingesting for WireDesk<'_, K, C> {
    ghost use Rattle.room_runs.specs.Desk.{Shelf};
    ghost use Rattle.room_runs.specs.Life.{life};
    ghost use Rattle.room_runs.specs.Wires.{of_incoming, wire_hand};

    ghost Entry = { Entry };

    ghost Found = { Option (List Bytes) };

    ghost Shelf = { Shelf };

    ghost faults = { λ d. K.keeper.faults d.room.now.keeper };

    ghost life = { λ s. life K.keeper C.clock wire_hand s };

    ghost meaning = { λ s. of_incoming s.before s.provider };

    fn ingest(&mut self, incoming: Incoming) -> Result<Vec<u8>, Stopped> {
        let now = self.clock.now();
        let answered = self.room.ingest(now, self.provider, incoming);
        request_answered(self.alloc, &answered)
    }
}

impl<K: Keeper, C: Clock> Receiving for WireDesk<'_, K, C> {
    ghost use Rattle.room_runs.specs.Desk.{Shelf};
    ghost use Rattle.room_runs.specs.Life.{life};
    ghost use Rattle.room_runs.specs.Wires.{of_incoming, wire_hand};
    ghost use Rattle.agency_runs.specs.Members.{of_message};

    ghost Entry = { Entry };

    ghost Left = { Option (List Bytes) };

    ghost Shelf = { Shelf };

    ghost faults = { λ d. K.keeper.faults d.room.now.keeper };

    ghost life = { λ s. life K.keeper C.clock wire_hand s };

    ghost meaning = { λ s. of_message (of_incoming s.before s.provider) };

    fn receive(&mut self, found: Found) -> Result<Vec<u8>, Stopped> {
        let (at, bytes) = match found {
            Found::Message { at, bytes } => (at, bytes),
            Found::TooLong { at } => return too_long(self.alloc, at),
        };
        let now = self.clock.now();
        match read_at(self.alloc, at, bytes.as_slice(), now) {
            Ok(Told::Story(incoming)) => {
                let answered = self.room.ingest(now, self.provider, incoming);
                request_answered(self.alloc, &answered)
            }
            Ok(Told::Line(line)) => Ok(line),
            Err(why) => Err(why),
        }
    }
}
