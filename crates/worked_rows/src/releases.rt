//! Releases, embargoes and schedules.
ghost use Rattle.std.specs.Prelude.{◌≡◌, [], ◌∷◌, length, Some, None};
ghost use Rattle.news_types.specs.declared.entry.Act.TheVariants.{Advance};
ghost use Rattle.news_types.specs.declared.command.Command.TheVariants.{Publish, Deschedule, Correct};
ghost use Rattle.news_types.specs.declared.words.Kind.TheVariants.{First};
ghost use Rattle.news_types.specs.declared.words.State.TheVariants.{InProgress};
ghost use Rattle.news_types.specs.declared.denial.Denial.TheVariants.{NotReleased, AlreadyReleased};
ghost use Rattle.news_types.specs.declared.query.Answer.TheVariants.{Feed};
ghost use Rattle.news_types.specs.Publications.{state};
ghost use Rattle.news_types.specs.Outcome.{Denied, entry_of};
ghost use Rattle.news_types.specs.Answers.{feed_answer};
ghost use Rattle.news_types.specs.Calls.{Ticked, follow, ticked};
ghost use Rattle.worked_rows.specs.Examples.{alpha, s, fire, told_next, done, numbers, feed_asked, row};
ghost use Rattle.worked_rows.specs.Releases.{two_items, first_embargoed, one_embargoed, both_embargoed, one_scheduled, descheduled, locked_again};

/// Two items are published at 1000, the first with an embargo until 2000. The second comes first in the feed,
/// and the first behind it at 2000, when one entry records that its time has come.
pub fn embargo_turns_the_order()
    ensures embargoed { told_next two_items (Publish 1 s None (Some 2000) []) 1000 ≡ done 8 1 1 2000 }
    ensures at_once { told_next first_embargoed (Publish 2 s None None []) 1000 ≡ done 9 2 2 1000 }
    ensures early { numbers (feed_asked one_embargoed alpha 1500) ≡ 2 ∷ [] }
    ensures early_entry { follow one_embargoed Ticked 1500 ≡ None }
    ensures late { numbers (feed_asked one_embargoed alpha 2000) ≡ 2 ∷ 1 ∷ [] }
    ensures late_entry { follow one_embargoed Ticked 2000 ≡ Some (entry_of 2000 Advance) }
    ensures late_answer { feed_answer (ticked one_embargoed 2000) alpha 0 ≡ Feed alpha 2 (row 1 2 2 First 1 1000 ∷ row 2 1 1 First 1 2000 ∷ []) }
{}

/// With both embargoed until 2000 they come by number.
pub fn one_release_keeps_the_order()
    ensures accepted { length both_embargoed ≡ 9 }
    ensures early { numbers (feed_asked both_embargoed alpha 1999) ≡ [] }
    ensures late { numbers (feed_asked both_embargoed alpha 2000) ≡ 1 ∷ 2 ∷ [] }
{}

/// A scheduled item may be descheduled until its release is there: then it is worked on again, and its publication
/// never comes.
pub fn deschedule_before_the_release()
    ensures accepted { length one_scheduled ≡ 9 }
    ensures late { told_next one_scheduled (Deschedule 1) 2000 ≡ Denied (AlreadyReleased 2000) }
    ensures early { told_next one_scheduled (Deschedule 1) 1999 ≡ done 10 1 0 0 }
    ensures state_behind { state descheduled 1 1999 ≡ Some InProgress }
    ensures feed_behind { numbers (feed_asked descheduled alpha 3000) ≡ 2 ∷ [] }
{}

/// An item whose publication waits cannot be corrected; from its release on the same request is done.
pub fn correction_waits_for_the_release()
    ensures accepted { length locked_again ≡ 10 }
    ensures early { told_next locked_again (Correct 1 s (fire 1)) 1999 ≡ Denied (NotReleased 2000) }
    ensures late { told_next locked_again (Correct 1 s (fire 1)) 2000 ≡ done 11 1 3 2000 }
{}
