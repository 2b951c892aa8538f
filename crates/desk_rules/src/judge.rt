//! Whether a command is allowed.
ghost use Rattle.std.specs.Prelude.{◌≡◌, Bool, not, flat_map, filter};
ghost use Rattle.news_types.specs.History.{History};
ghost use Rattle.news_types.specs.Denial as denial;
ghost use Rattle.news_types.specs.Items as items;
ghost use Rattle.news_types.specs.Publications as published;
ghost use Rattle.news_types.specs.declared.command.Command.TheVariants as command;
ghost use Rattle.news_types.specs.declared.denial.Denial.TheVariants.{NameTaken};
ghost use Rattle.desk_rules.specs.Keeps.{KeepsFacts};
ghost use Rattle.desk_rules.specs.Asked.{caller_denial, may_denial, knows_denial, full_denial, is_of_desks};

use crate::command::privilege_of;
use crate::item::{asked_desk, work_denial};
use crate::table::Desks;
use crate::users::grants;
use item_rules::named_item;
use news_types::{Command, Denial, Name, Place, Rule, State, Thing};

/// How many users there may be.
const MOST_USERS: u32 = 4096;

/// How many desks there may be.
const MOST_DESKS: u32 = 256;

/// How many stages a desk may have.
const MOST_STAGES: u32 = 64;

impl Desks {
    /// Denies the caller the command by the first of these reasons: the caller is no user, or lacks the privilege; is
    /// no member of the desk that is asked for; the item is in another state than the command asks for, nobody
    /// holds it, or somebody else does. The state is that of the command's item, if it names one that is there. It
    /// takes no memory.
    pub fn may(&self, caller: &Name, command: &Command, state: Option<State>) -> Option<Denial>
        ensures { (h : History) → KeepsFacts self.now h → result ≡ may_denial h caller.now command.now state }
    {
        if let Some(denial) = self.caller_denial(caller, command) {
            return Some(denial);
        }
        if let Some(denial) = self.member_denial(caller, command) {
            return Some(denial);
        }
        let seat = self.seat(named_item(command));
        work_denial(caller, command, seat, state)
    }

    /// That the caller is no user, or lacks the privilege. It takes no memory.
    pub fn caller_denial(&self, caller: &Name, command: &Command) -> Option<Denial>
        ensures { (h : History) → KeepsFacts self.now h → result ≡ caller_denial h caller.now command.now }
    {
        let Some(privileges) = self.users.get(caller).copied() else {
            return Some(Denial::UnknownUser);
        };
        let privilege = privilege_of(command);
        if grants(privileges, privilege) {
            return None;
        }
        Some(Denial::NoPrivilege { privilege })
    }

    /// That the caller is no member of the desk that is asked for.
    fn member_denial(&self, caller: &Name, command: &Command) -> Option<Denial>
        ensures { (h : History) → KeepsFacts self.now h → result ≡ denial.member_denial h caller.now (denial.asked_desk command.now (published.item h (items.named_item command.now))) }
    {
        let desk = asked_desk(command, self.place(named_item(command)))?;
        if self.has_member(&desk, caller) {
            return None;
        }
        Some(Denial::NotMember { desk })
    }

    /// Denies a command that names a user, a desk or a stage that is not there, or that adds one that is there
    /// already. It takes no memory.
    pub fn knows(&self, command: &Command) -> Option<Denial>
        ensures { (h : History) → KeepsFacts self.now h → result ≡ knows_denial h command.now }
    {
        match command {
            Command::AddUser { user, .. } => taken(self.has_user(user)),
            Command::SetUser { user, .. } => Denial::unless_there(Thing::User, self.has_user(user)),
            Command::AddDesk { desk } => taken(self.has_desk(desk)),
            Command::AddStage { desk, stage } => self.stage_denial(desk, stage),
            Command::SetMember { desk, user, .. } => self.user_denial(desk, user),
            Command::AddScheme { rules, .. } => self.rules_denial(rules.as_slice()),
            Command::Create { desk, .. } => Denial::unless_there(Thing::Desk, self.has_desk(desk)),
            Command::MoveTo { desk, stage, .. } => self.place_denial(desk, stage),
            Command::Unspike { desk, .. } => Denial::unless_there(Thing::Desk, self.has_desk(desk)),
            Command::Fetch { desk, .. } => Denial::unless_there(Thing::Desk, self.has_desk(desk)),
            _ => None,
        }
    }

    /// That the desk is not there, or has the stage.
    fn stage_denial(&self, desk: &Name, stage: &Name) -> Option<Denial>
        ensures { (h : History) → KeepsFacts self.now h → result ≡ knows_denial h (command.AddStage desk.now stage.now) }
    {
        if !self.has_desk(desk) {
            return Denial::unless_there(Thing::Desk, false);
        }
        taken(self.has_stage(desk, stage))
    }

    /// That the desk or the user is not there.
    fn user_denial(&self, desk: &Name, user: &Name) -> Option<Denial>
        ensures { (h : History) → KeepsFacts self.now h → (member : Bool) → result ≡ knows_denial h (command.SetMember desk.now user.now member) }
    {
        if !self.has_desk(desk) {
            return Denial::unless_there(Thing::Desk, false);
        }
        Denial::unless_there(Thing::User, self.has_user(user))
    }

    /// That the desk is not there, or has no such stage.
    fn place_denial(&self, desk: &Name, stage: &Name) -> Option<Denial>
        ensures { (h : History) → KeepsFacts self.now h → result ≡ denial.first_missing (denial.absent_in_place h desk.now stage.now) }
    {
        let thing = self.missing(&Place {
            desk: *desk,
            stage: *stage,
        })?;
        Some(Denial::UnknownThing { thing })
    }

    /// That a place that one of the rules fetches to is not there.
    fn rules_denial(&self, rules: &[Rule]) -> Option<Denial>
        ensures { (h : History) → KeepsFacts self.now h → result ≡ denial.first_missing (filter is_of_desks (flat_map (denial.absent_in_rule h) rules.now)) }
    {
        for rule in rules.iter() {
            if let Some(denial) = self.fetch_denial(rule.fetch) {
                return Some(denial);
            }
        }
        None
    }

    /// That the place is not there, if one is given.
    fn fetch_denial(&self, fetch: Option<Place>) -> Option<Denial>
        ensures { (h : History) → KeepsFacts self.now h → result ≡ denial.first_missing (denial.absent_in_fetch h fetch) }
    {
        let place = fetch?;
        self.place_denial(&place.desk, &place.stage)
    }

    /// Denies a command that adds a user, a desk or a stage where there are too many. It takes no memory.
    pub fn full(&self, command: &Command) -> Option<Denial>
        ensures { (h : History) → KeepsFacts self.now h → result ≡ full_denial h command.now }
    {
        match command {
            Command::AddUser { .. } => Denial::unless_below(
                Thing::User,
                self.users.len(),
                MOST_USERS,
            ),
            Command::AddDesk { .. } => Denial::unless_below(
                Thing::Desk,
                self.desks.len(),
                MOST_DESKS,
            ),
            Command::AddStage { desk, .. } => {
                Denial::unless_below(Thing::Stage, self.stage_count(desk) as usize, MOST_STAGES)
            }
            _ => None,
        }
    }
}

/// That a name that is added is there already.
fn taken(is_there: bool) -> Option<Denial>
    ensures { result ≡ denial.unless (not is_there) NameTaken }
{
    if is_there {
        return Some(Denial::NameTaken);
    }
    None
}
