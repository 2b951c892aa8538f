//! The requests of a drill, one after the other.
ghost use Rattle.std.specs.Prelude.{◌≡◌, IfOk, OnOk, OnErr, IfSome, slice_get, drop};
ghost use Rattle.drill_plan.specs.Plan.{plan, FitsPlanned};

use crate::agenda::{Agenda, go_on};
use crate::planned::Planned;
use crate::setup::{admin, setup};
use crate::stories::moment_of;
use news_types::Memory;
use std::alloc::Global;
use std::marker::Model;

/// The requests of a drill that are still to come. A contract sees it as their list.
#[derive(Drop)]
pub struct Plan {
    alloc: Global,
    agenda: Agenda,
    /// The number of the next request.
    number: u64,
}

impl Model for Plan {
    ghost use Rattle.std.specs.Prelude.{List};
    ghost use Rattle.drill_plan.specs.declared.planned.Planned.{Planned};
    ghost use Rattle.drill_plan.specs.Agenda.{coming, IsPlan};

    ghost Value = { List Planned };

    ghost view = { coming };

    ghost invariant = { IsPlan };
}

impl Plan {
    /// The requests of a drill of so many stories with this seed.
    pub fn new(alloc: Global, stories: u32, seed: u64) -> Result<Plan, Memory>
        ensures { IfOk result (λ coming. coming ≡ plan stories seed) }
    {
        Ok(Plan {
            alloc,
            agenda: Agenda {
                due: setup(alloc)?,
                story: 0,
                left: stories,
                generator: seed,
            },
            number: 1,
        })
    }

    /// The next request, or nothing where all have come. Where memory is wanting, none is passed over.
    pub fn next(&mut self) -> Result<Option<Planned>, Memory>
        ensures first { IfOk result (λ next. next ≡ slice_get self.old 0) }
        ensures rest { OnOk result (self.new ≡ drop 1 self.old) }
        ensures memory { OnErr result (self.new ≡ self.old) }
        ensures fits { IfOk result (λ next. IfSome next FitsPlanned) }
    {
        go_on(self.alloc, &mut self.agenda)?;
        let Some(command) = self.agenda.due.pop_front() else {
            return Ok(None);
        };
        let number = self.number;
        self.number += 1;
        Ok(Some(Planned {
            moment: moment_of(self.agenda.story),
            caller: admin(),
            number,
            command,
        }))
    }
}
