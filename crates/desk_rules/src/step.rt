//! What commands do to the table.
ghost use Rattle.std.specs.Prelude.{◌≡◌};
ghost use Rattle.desk_rules.specs.declared.step.Step.TheVariants as step;
ghost use Rattle.desk_rules.specs.Steps.{step_of, make_at};

use crate::places::{incoming, working};
use news_types::{Command, Holder, Name, Place, Privileges};

/// What a change does.
#[derive(Drop)]
pub(crate) enum Step {
    AddUser {
        user: Name,
        privileges: Privileges,
    },
    SetUser {
        user: Name,
        privileges: Privileges,
    },
    AddDesk {
        desk: Name,
    },
    AddStage {
        place: Place,
    },
    SetMember {
        desk: Name,
        user: Name,
        member: bool,
    },
    /// The next item is made at the place, and nobody holds it.
    Make {
        place: Place,
    },
    /// The next item is made on no desk, and nobody holds it.
    MakeAlone,
    Put {
        item: u32,
        place: Place,
    },
    Hold {
        item: u32,
        holder: Holder,
    },
    Free {
        item: u32,
    },
    Nothing,
}

/// What a command of the caller does.
pub(crate) fn step_of(caller: &Name, command: &Command) -> Step
    ensures { result ≡ step_of caller.now command.now }
{
    match command {
        Command::AddUser { user, privileges } => Step::AddUser {
            user: *user,
            privileges: *privileges,
        },
        Command::SetUser { user, privileges } => Step::SetUser {
            user: *user,
            privileges: *privileges,
        },
        Command::AddDesk { desk } => Step::AddDesk { desk: *desk },
        Command::AddStage { desk, stage } => Step::AddStage {
            place: place(desk, *stage),
        },
        Command::SetMember { desk, user, member } => Step::SetMember {
            desk: *desk,
            user: *user,
            member: *member,
        },
        Command::Create { desk, .. } => Step::Make {
            place: place(desk, working()),
        },
        Command::Flash { .. } => Step::MakeAlone,
        Command::MoveTo { item, desk, stage } => put(*item, place(desk, *stage)),
        Command::Unspike { item, desk } => put(*item, place(desk, incoming())),
        Command::Fetch { item, desk } => put(*item, place(desk, incoming())),
        Command::Lock { item, session } => hold(*item, caller, session),
        Command::Unlock { item, .. }
        | Command::BreakLock { item }
        | Command::Publish { item, .. }
        | Command::Correct { item, .. }
        | Command::Kill { item, .. }
        | Command::Recall { item, .. } => Step::Free { item: *item },
        _ => Step::Nothing,
    }
}

/// The stage of the desk.
fn place(desk: &Name, stage: Name) -> Place
    ensures { result ≡ record { desk = desk.now; stage = stage } }
{
    Place { desk: *desk, stage }
}

/// The item goes to the place.
fn put(item: u32, place: Place) -> Step
    ensures { result ≡ step.Put item place }
{
    Step::Put { item, place }
}

/// The caller holds the item in the session.
fn hold(item: u32, caller: &Name, session: &Name) -> Step
    ensures { result ≡ step.Hold item (record { user = caller.now; session = session.now }) }
{
    Step::Hold {
        item,
        holder: Holder {
            user: *caller,
            session: *session,
        },
    }
}

/// The next item is made, at the place if one is given.
pub(crate) fn make(place: Option<Place>) -> Step
    ensures { result ≡ make_at place }
{
    match place {
        Some(place) => Step::Make { place },
        None => Step::MakeAlone,
    }
}
