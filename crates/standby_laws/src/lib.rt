//! What a standby holds of its primary's list, after every list of events.
//!
//! Each function states one law and does nothing: its contract is the law, over the definitions that the contracts of
//! the standby's calls cite too.
#![tactic(auto)]

ghost use Rattle.std.specs.Prelude.{◌≡◌, [], ◌∷◌};
ghost use Rattle.standby_laws.specs.Example.{day, evening, morning, night};
ghost use Rattle.standby_laws.specs.Following.{MayAll, happens, opening};
ghost use Rattle.standby_laws.specs.Law.{FollowingHolds, StopsAreEvents};
ghost use Rattle.standby_laws.specs.WrongStandbys.{answers_before_it_keeps, doubts_what_it_kept, loses_at_a_stop, skips_a_record, takes_a_record_twice};

use news_io::Keeper;

/// After every list of events the standby's list is a prefix of the primary's, and has at least as many entries as each
/// KEPT that was sent has said; and so is what a stop leaves of it. It is legal, and each entry in doubt may follow it.
/// The primary's list grows by what may follow it; the records of it are sent in any order, and reach the standby late,
/// again or never; each that the standby takes is kept, refused, or left in doubt.
pub fn following_law()
    ensures { FollowingHolds happens }
{}

/// What a crash leaves of a keeper, whose payloads in doubt are among those of the standby's, is what a stop of the
/// events leaves: the records of the list, or these and that of an entry in doubt.
pub fn stops_law<K: Keeper>()
    ensures { StopsAreEvents K.keeper }
{}

/// They move: on a day that may be, with a record ahead, one that fails to be kept, a stop that finds it, and one that
/// comes again, the standby says KEPT of none, of one and of two, and has both entries at the end.
pub fn following_moves()
    ensures may { MayAll happens day opening }
    ensures list { night.standby.list ≡ evening ∷ morning ∷ [] }
    ensures kepts { night.kepts ≡ 2 ∷ 1 ∷ 0 ∷ [] }
{}

/// The law forbids these standbys: one that takes a record out of turn, one that takes a record twice, one that says
/// KEPT before the record is kept, one that leaves in doubt what it kept, one that loses an entry at a stop.
pub fn wrong_standbys()
    ensures skip { FollowingHolds skips_a_record → ⊥ }
    ensures twice { FollowingHolds takes_a_record_twice → ⊥ }
    ensures early { FollowingHolds answers_before_it_keeps → ⊥ }
    ensures doubt { FollowingHolds doubts_what_it_kept → ⊥ }
    ensures loses { FollowingHolds loses_at_a_stop → ⊥ }
{}
