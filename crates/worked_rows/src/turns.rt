//! Numbers of requests, and repeats.
ghost use Rattle.std.specs.Prelude.{◌≡◌, length, None};
ghost use Rattle.news_types.specs.declared.command.Command.TheVariants.{AddDesk, Stop};
ghost use Rattle.news_types.specs.declared.denial.Denial.TheVariants.{OutOfTurn, NumberUsed, NoPrivilege};
ghost use Rattle.news_types.specs.declared.words.Privilege.TheVariants as privilege;
ghost use Rattle.news_types.specs.Outcome.{Denied, request};
ghost use Rattle.worked_rows.specs.Examples.{city, ana, told, done, repeated};
ghost use Rattle.worked_rows.specs.Turns.{six_of_ana, seven_of_ana, sent_again, without_privileges};

/// A request that was accepted may be sent again: it keeps no entry and has the reply of the first time. Another
/// command cannot take its number, and no number is left out.
pub fn repeat_keeps_no_entry()
    ensures accepted { length six_of_ana ≡ 7 }
    ensures first { told six_of_ana ana 7 Stop 1000 ≡ done 8 0 0 0 }
    ensures again { told seven_of_ana ana 7 Stop 1000 ≡ repeated 8 0 0 0 }
    ensures again_entry { (request seven_of_ana ana 7 Stop 1000).more ≡ None }
    ensures third { told sent_again ana 7 Stop 1000 ≡ repeated 8 0 0 0 }
    ensures other { told seven_of_ana ana 7 (AddDesk city) 1000 ≡ Denied (NumberUsed 7) }
    ensures ahead { told seven_of_ana ana 9 Stop 1000 ≡ Denied (OutOfTurn 8) }
{}

/// A repeat is one also for a caller who may do it no more.
pub fn repeat_needs_no_privilege()
    ensures accepted { length without_privileges ≡ 9 }
    ensures again { told without_privileges ana 7 Stop 1000 ≡ repeated 8 0 0 0 }
    ensures next { told without_privileges ana 8 Stop 1000 ≡ Denied (NoPrivilege privilege.Stop) }
{}
