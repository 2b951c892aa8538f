//! The requests of a plan are asked.
ghost use Rattle.std.specs.Prelude.{OnOk, OnErr, length};
ghost use Rattle.news_types.specs.Books.{Book};
ghost use Rattle.news_room.specs.Stands.{Stands, SomeBook};
ghost use Rattle.drill_plan.specs.Plan.{FitsPlanned};
ghost use Rattle.feed_drill.specs.Requests.{asked, given, with_list};
ghost use Rattle.feed_drill.specs.Readings.{IsRead, IsReadAtMost};

use crate::stopped::Stopped;
use drill_plan::{Plan, Planned};
use news_io::{Clock, Keeper};
use news_room::{Handled, Room};

/// Asks a planned request, at its moment.
fn ask<K: Keeper>(room: &mut Room<K>, planned: Planned) -> Result<(), Stopped>
    requires stands { SomeBook K.keeper room.old }
    requires fits { FitsPlanned planned }
    ensures { (b : Book) → Stands K.keeper room.old b → OnOk result (Stands K.keeper room.new (with_list (asked planned b.list) b)) }
{
    let Planned {
        moment,
        caller,
        number,
        command,
    } = planned;
    match room.request(moment, caller, number, command) {
        Handled::Done(_) | Handled::Repeat(_) | Handled::Denied(_) => Ok(()),
        Handled::Full { .. } => Err(Stopped::Full),
        Handled::Fault | Handled::Memory => Err(Stopped::Memory),
    }
}

/// Asks all requests of a plan, each at its moment. The clock is read once for each, and shows nothing that is used.
pub(crate) fn ask_all<K: Keeper, C: Clock>(
    room: &mut Room<K>,
    mut plan: Plan,
    clock: &mut C,
) -> Result<(), Stopped>
    requires stands { SomeBook K.keeper room.old }
    ensures given { (b : Book) → Stands K.keeper room.old b → OnOk result (Stands K.keeper room.new (with_list (given b.list plan) b)) }
    ensures read { OnOk result (IsRead C.clock (length plan) clock.old clock.new) }
    ensures stopped { OnErr result (IsReadAtMost C.clock (length plan) clock.old clock.new) }
{
    while let Some(planned) = plan.next()? {
        clock.now();
        ask(room, planned)?;
    }
    Ok(())
}
