//! The first reason to deny a command, behind the question of its number.
ghost use Rattle.std.specs.Prelude.{◌≡◌, ℕ, None};
ghost use Rattle.news_types.specs.Names.{Bytes};
ghost use Rattle.news_types.specs.History.{History};
ghost use Rattle.news_types.specs.Denial.{command_denial, past_denial, release_denial, times_denial};
ghost use Rattle.desk_rules.specs.Asked.{caller_denial};
ghost use Rattle.item_commands.specs.Sorts.{sort_of};
ghost use Rattle.item_commands.specs.declared.sort.Sort.TheVariants as sort;
ghost use Rattle.newsroom.specs.Stands.{StandsFor};
ghost use Rattle.newsroom.specs.Reasons.{rest_denial, resume_by};

use crate::newsroom::Newsroom;
use item_commands::{Sort, named_item, sort_of};
use news_types::{Command, Denial, Moment, Name, State, Thing};

impl Newsroom {
    // The first reason to deny a caller the command.
    pub(crate) fn command_denied(
        &self,
        caller: &Name,
        command: &Command,
        moment: Moment,
    ) -> Option<Denial>
        ensures { (h : History) → StandsFor self.now h → result ≡ command_denial h caller.now command.now moment }
    {
        if let Some(denial) = self.rules.caller_denied(caller, command) {
            return Some(denial);
        }
        self.rest_denied(caller, command, moment)
    }

    // The first reason that is not one of the caller's.
    fn rest_denied(&self, caller: &Name, command: &Command, moment: Moment) -> Option<Denial>
        ensures { (h : History) → StandsFor self.now h → caller_denial h caller.now command.now ≡ None → result ≡ rest_denial h caller.now command.now moment }
    {
        match sort_of(command) {
            Sort::Desks => self.rules.desks_denied(command),
            Sort::Filters => self.rules.filters_denied(command),
            Sort::Products => self.rules.products_denied(command),
            Sort::Sources => self.rules.sources_denied(command),
            Sort::Resumes => self.resume_denied(command),
            Sort::Stops => None,
            Sort::Makes => self.make_denied(caller, command),
            Sort::Works => self.work_denied(caller, command, moment),
            Sort::Flashes => self.flash_denied(command),
            Sort::Publishes => self.publish_denied(caller, command, moment),
            Sort::Follows => self.follow_denied(caller, command, moment),
            Sort::Withdraws => self.withdraw_denied(caller, command, moment),
        }
    }

    // The first reason not to push a feed again.
    fn resume_denied(&self, command: &Command) -> Option<Denial>
        ensures { (h : History) (caller : Bytes) (m : ℕ) → StandsFor self.now h → sort_of command.now ≡ sort.Resumes → result ≡ rest_denial h caller command.now m }
    {
        let Command::Resume { subscriber } = command else {
            return None;
        };
        resume_by(self.stories.is_paused(subscriber))
    }

    // The first reason not to make an item.
    fn make_denied(&self, caller: &Name, command: &Command) -> Option<Denial>
        ensures { (h : History) (m : ℕ) → StandsFor self.now h → caller_denial h caller.now command.now ≡ None → sort_of command.now ≡ sort.Makes → result ≡ rest_denial h caller.now command.now m }
    {
        if let Some(denial) = self.rules.knows(command) {
            return Some(denial);
        }
        if let Some(denial) = self.rules.may(caller, command, None) {
            return Some(denial);
        }
        self.stories.items_full()
    }

    // The first reason not to flash a story.
    fn flash_denied(&self, command: &Command) -> Option<Denial>
        ensures { (h : History) (caller : Bytes) (m : ℕ) → StandsFor self.now h → sort_of command.now ≡ sort.Flashes → result ≡ rest_denial h caller command.now m }
    {
        let Command::Flash { targets, .. } = command else {
            return None;
        };
        if !self.stories.has_feeds(targets.as_slice()) {
            return Some(Denial::UnknownThing {
                thing: Thing::Subscriber,
            });
        }
        if let Some(denial) = self.stories.items_full() {
            return Some(denial);
        }
        self.stories.publications_full()
    }

    // The first reason not to publish an item.
    fn publish_denied(&self, caller: &Name, command: &Command, moment: Moment) -> Option<Denial>
        ensures { (h : History) → StandsFor self.now h → caller_denial h caller.now command.now ≡ None → sort_of command.now ≡ sort.Publishes → result ≡ rest_denial h caller.now command.now moment }
    {
        let Command::Publish {
            item,
            schedule,
            embargo,
            targets,
            ..
        } = command
        else {
            return None;
        };
        let Some(state) = self.stories.state(*item, moment) else {
            return Some(Denial::UnknownThing { thing: Thing::Item });
        };
        if !self.stories.has_feeds(targets.as_slice()) {
            return Some(Denial::UnknownThing {
                thing: Thing::Subscriber,
            });
        }
        if let Some(denial) = self.rules.may(caller, command, Some(state)) {
            return Some(denial);
        }
        if let Some(denial) = times_denied(moment, *schedule, *embargo) {
            return Some(denial);
        }
        self.stories.publications_full()
    }

    // The first reason not to correct, kill or recall what is out.
    fn follow_denied(&self, caller: &Name, command: &Command, moment: Moment) -> Option<Denial>
        ensures { (h : History) → StandsFor self.now h → caller_denial h caller.now command.now ≡ None → sort_of command.now ≡ sort.Follows → result ≡ rest_denial h caller.now command.now moment }
    {
        let item = named_item(command);
        let Some(state) = self.stories.state(item, moment) else {
            return Some(Denial::UnknownThing { thing: Thing::Item });
        };
        if let Some(denial) = self.rules.may(caller, command, Some(state)) {
            return Some(denial);
        }
        if let Some(denial) = release_denied(command, state, self.stories.release(item)) {
            return Some(denial);
        }
        self.stories.publications_full()
    }

    // The first reason not to withdraw what waits.
    fn withdraw_denied(&self, caller: &Name, command: &Command, moment: Moment) -> Option<Denial>
        ensures { (h : History) → StandsFor self.now h → caller_denial h caller.now command.now ≡ None → sort_of command.now ≡ sort.Withdraws → result ≡ rest_denial h caller.now command.now moment }
    {
        let item = named_item(command);
        let Some(state) = self.stories.state(item, moment) else {
            return Some(Denial::UnknownThing { thing: Thing::Item });
        };
        if let Some(denial) = self.rules.may(caller, command, Some(state)) {
            return Some(denial);
        }
        release_denied(command, state, self.stories.release(item))
    }

    // The first reason not to work on an item.
    fn work_denied(&self, caller: &Name, command: &Command, moment: Moment) -> Option<Denial>
        ensures { (h : History) → StandsFor self.now h → caller_denial h caller.now command.now ≡ None → sort_of command.now ≡ sort.Works → result ≡ rest_denial h caller.now command.now moment }
    {
        let Some(state) = self.stories.state(named_item(command), moment) else {
            return Some(Denial::UnknownThing { thing: Thing::Item });
        };
        if let Some(denial) = self.rules.knows(command) {
            return Some(denial);
        }
        self.rules.may(caller, command, Some(state))
    }
}

/// What is asked of the release: a change of what is out before it, or a withdrawing behind it.
fn release_denied(command: &Command, state: State, release: Moment) -> Option<Denial>
    ensures { result ≡ release_denial command.now state release }
{
    match (command, state) {
        (
            Command::Correct { .. } | Command::Kill { .. } | Command::Recall { .. },
            State::Scheduled,
        ) => Some(Denial::NotReleased { release }),
        (Command::Deschedule { .. }, State::Published | State::Corrected) => {
            Some(Denial::AlreadyReleased { release })
        }
        _ => None,
    }
}

/// What is asked of the times of a publication.
fn times_denied(moment: Moment, schedule: Option<Moment>, embargo: Option<Moment>) -> Option<Denial>
    ensures { result ≡ times_denial moment schedule embargo }
{
    match (schedule, embargo) {
        (Some(_), Some(_)) => Some(Denial::BothTimes),
        (schedule, None) => past_denied(moment, schedule),
        (None, embargo) => past_denied(moment, embargo),
    }
}

/// That the time is past.
fn past_denied(moment: Moment, time: Option<Moment>) -> Option<Denial>
    ensures { result ≡ past_denial moment time }
{
    if moment <= time? {
        return None;
    }
    Some(Denial::PastMoment { moment })
}

/// The first reason not to push a feed again that is paused or not, if it is there.
fn resume_by(paused: Option<bool>) -> Option<Denial>
    ensures { result ≡ resume_by paused }
{
    match paused {
        Some(true) => None,
        Some(false) => Some(Denial::NotPaused),
        None => Some(Denial::UnknownThing {
            thing: Thing::Subscriber,
        }),
    }
}
