//! The tick before a report.
ghost use Rattle.std.specs.Prelude.{◌≡◌};
ghost use Rattle.news_room.specs.Stands.{SomeBook};
ghost use Rattle.room_reports.specs.Parts.{released};
ghost use Rattle.room_reports.specs.Reports.{IsRelease};

use news_io::{Clock, Keeper};
use news_room::{Room, Ticked};
use run_status::Status;

/// Releases what waits, at one reading of the clock.
#[tactic(none)]
pub(crate) fn release<K: Keeper, C: Clock>(room: &mut Room<K>, clock: &mut C) -> Result<(), Status>
    requires { SomeBook K.keeper room.old }
    ensures { (release : IsRelease K.keeper C.clock room.old room.new clock.old clock.new) × (result ≡ released release.ticked) }
{
    let now = clock.now();
    match room.tick(now) {
        Ticked::Kept { .. } | Ticked::Still => Ok(()),
        Ticked::Fault => Err(Status::Store),
        Ticked::Full { .. } => Err(Status::Full),
    }
}
