//! The commands that are still to come.
ghost use Rattle.std.specs.Prelude.{◌≡◌, [], OnOk};
ghost use Rattle.drill_plan.specs.Agenda.{commands, IsAgenda};

use crate::draws::{draw, next};
use crate::stories::steps_of;
use news_types::{Command, Memory};
use std::alloc::Global;
use std::collections::VecDeque;

/// Where a drill stands.
#[derive(Drop)]
pub(crate) struct Agenda {
    /// What is still to be asked at the present moment: of the setup, or of the present story.
    pub due: VecDeque<Command>,
    /// The number of the present story, 0 in the setup.
    pub story: u32,
    /// How many stories come behind it.
    pub left: u32,
    pub generator: u64,
}

/// Goes on to the next story where nothing is due any more and there is one. After want of memory nothing has changed.
pub(crate) fn go_on(alloc: Global, agenda: &mut Agenda) -> Result<(), Memory>
    requires { IsAgenda agenda.old }
    ensures same { commands agenda.new ≡ commands agenda.old }
    ensures limits { IsAgenda agenda.new }
    ensures due { OnOk result (agenda.new.due.items ≡ [] → commands agenda.old ≡ []) }
{
    if !agenda.due.is_empty() || agenda.left == 0 {
        return Ok(());
    }
    let story = agenda.story + 1;
    agenda.due = steps_of(alloc, story, draw(agenda.generator))?;
    agenda.generator = next(agenda.generator);
    agenda.story = story;
    agenda.left -= 1;
    Ok(())
}
