//! Desks, states and locks.
ghost use Rattle.std.specs.Prelude.{◌≡◌, length};
ghost use Rattle.news_types.specs.declared.command.Command.TheVariants.{Unspike};
ghost use Rattle.news_types.specs.declared.words.State.TheVariants.{Spiked};
ghost use Rattle.news_types.specs.declared.denial.Denial.TheVariants.{NotMember, WrongState, NotLocked, LockedBy};
ghost use Rattle.news_types.specs.Outcome.{Denied};
ghost use Rattle.worked_rows.specs.Examples.{city, ana, one, told, done};
ghost use Rattle.worked_rows.specs.Locks.{spiked, joined, unspiked, locked, edit_from_two, sport, joined_sport};

/// An edit is asked for the desk first, then for the state, and then for the lock, which is one of a user and a
/// session.
pub fn edit_asks_for_desk_state_and_lock()
    ensures accepted { length locked ≡ 8 }
    ensures desk { told spiked ana 1 edit_from_two 1000 ≡ Denied (NotMember city) }
    ensures state { told joined ana 1 edit_from_two 1000 ≡ Denied (WrongState Spiked) }
    ensures lock { told unspiked ana 1 edit_from_two 1000 ≡ Denied NotLocked }
    ensures session { told locked ana 2 edit_from_two 1000 ≡ Denied (LockedBy ana one) }
{}

/// To unspike an item one has to be a member of the desk that it comes to, and not of its own.
pub fn unspike_asks_for_the_named_desk()
    ensures accepted { length joined_sport ≡ 7 }
    ensures named { told joined_sport ana 1 (Unspike 1 sport) 1000 ≡ done 8 1 0 0 }
    ensures own { told joined_sport ana 1 (Unspike 1 city) 1000 ≡ Denied (NotMember city) }
{}
