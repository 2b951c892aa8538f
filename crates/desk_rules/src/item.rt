//! What a command asks of its item: whose members may do it, its state, and its lock.
ghost use Rattle.std.specs.Prelude.{◌≡◌, [], Option, is_some};
ghost use Rattle.news_types.specs.Denial as denial;
ghost use Rattle.news_types.specs.Items.{Item};
ghost use Rattle.desk_rules.specs.Asked.{place_in, IsHeldAs, work_denial};

use crate::seats::Seat;
use item_rules::{action_of, next_state};
use news_types::{Action, Command, Denial, Holder, Name, Place, State};

/// The desk whose members alone may do it, if there is one: the one that is named, or else that of the item.
pub(crate) fn asked_desk(command: &Command, place: Option<Place>) -> Option<Name>
    ensures { (it : Option Item) → place ≡ place_in it → result ≡ denial.asked_desk command.now it }
{
    match command {
        Command::Create { desk, .. }
        | Command::Unspike { desk, .. }
        | Command::Fetch { desk, .. } => Some(*desk),
        _ => desk_of(place),
    }
}

/// The desk of a place.
fn desk_of(place: Option<Place>) -> Option<Name>
    ensures { (it : Option Item) → place ≡ place_in it → result ≡ denial.desk_of it }
{
    Some(place?.desk)
}

/// What an item in the state is denied for: its state, or its lock.
pub(crate) fn work_denial(
    caller: &Name,
    command: &Command,
    seat: Option<Seat>,
    state: Option<State>,
) -> Option<Denial>
    ensures { (it : Option Item) → IsHeldAs seat it → result ≡ work_denial caller.now command.now it state }
{
    let seat = seat?;
    let state = state?;
    if let Some(denial) = state_denial(command, state) {
        return Some(denial);
    }
    lock_denial(caller, command, seat.holder)
}

/// That the command may not be given in the state. What only waits for a release, or comes behind it, is not denied
/// here.
fn state_denial(command: &Command, state: State) -> Option<Denial>
    ensures { result ≡ denial.state_denial command.now state }
{
    if has_row(state, action_of(command)) || is_about_release(command, state) {
        return None;
    }
    Some(Denial::WrongState { state })
}

/// Whether the action may be done in the state; where there is none, it may.
fn has_row(state: State, action: Option<Action>) -> bool
    ensures { result ≡ denial.has_row state action }
{
    match action {
        Some(action) => next_state(state, action).is_some(),
        None => true,
    }
}

/// Whether the command is denied in this state for the item's release.
fn is_about_release(command: &Command, state: State) -> bool
    ensures { result ≡ denial.is_about_release command.now state }
{
    match command {
        Command::Correct { .. } | Command::Kill { .. } | Command::Recall { .. } => {
            state == State::Scheduled
        }
        Command::Deschedule { .. } => state == State::Published || state == State::Corrected,
        _ => false,
    }
}

/// What the command is denied for, where this is who holds its item.
fn lock_denial(caller: &Name, command: &Command, holder: Option<Holder>) -> Option<Denial>
    ensures { result ≡ denial.lock_denial caller.now (denial.lock_rule command.now) holder }
{
    match command {
        Command::Edit { session, .. }
        | Command::Publish { session, .. }
        | Command::Correct { session, .. }
        | Command::Kill { session, .. }
        | Command::Recall { session, .. }
        | Command::Unlock { session, .. } => held_denial(caller, session, holder),
        Command::BreakLock { .. } => unheld_denial(holder),
        Command::Lock { session, .. } => another_denial(caller, session, holder),
        Command::MoveTo { .. } | Command::Spike { .. } | Command::Deschedule { .. } => {
            any_denial(holder)
        }
        _ => None,
    }
}

/// That the caller does not hold it in the session.
fn held_denial(caller: &Name, session: &Name, holder: Option<Holder>) -> Option<Denial>
    ensures { result ≡ denial.lock_denial caller.now (denial.Held session.now) holder }
{
    match holder {
        Some(_) => another_denial(caller, session, holder),
        None => Some(Denial::NotLocked),
    }
}

/// That nobody holds it.
fn unheld_denial(holder: Option<Holder>) -> Option<Denial>
    ensures { result ≡ denial.lock_denial [] denial.HeldByAny holder }
{
    match holder {
        Some(_) => None,
        None => Some(Denial::NotLocked),
    }
}

/// That another user or another session holds it.
fn another_denial(caller: &Name, session: &Name, holder: Option<Holder>) -> Option<Denial>
    ensures { result ≡ denial.lock_denial caller.now (denial.Free session.now) holder }
{
    let holder = holder?;
    if holder.user == *caller && holder.session == *session {
        return None;
    }
    Some(locked_by(holder))
}

/// That anybody holds it.
fn any_denial(holder: Option<Holder>) -> Option<Denial>
    ensures { result ≡ denial.lock_denial [] denial.FreeOfAll holder }
{
    Some(locked_by(holder?))
}

/// That this one holds it.
fn locked_by(holder: Holder) -> Denial
    ensures { result ≡ denial.locked_by holder }
{
    Denial::LockedBy {
        user: holder.user,
        session: holder.session,
    }
}
