//! Receipts and attempts.
ghost use Rattle.std.specs.Prelude.{◌≡◌, length, replicate, [], ◌∷◌, Some, None, true};
ghost use Rattle.news_types.specs.declared.entry.Act.TheVariants.{Receipt};
ghost use Rattle.news_types.specs.declared.command.Command.TheVariants.{Resume};
ghost use Rattle.news_types.specs.declared.denial.Denial.TheVariants.{ReceiptAhead};
ghost use Rattle.news_types.specs.Delivery.{is_paused};
ghost use Rattle.news_types.specs.Frames.{Writer};
ghost use Rattle.news_types.specs.Outcome.{Denied, entry_of, receipt};
ghost use Rattle.news_types.specs.Calls.{Idle, ticked};
ghost use Rattle.worked_rows.specs.Examples.{alpha, told_next, done, asked};
ghost use Rattle.worked_rows.specs.Delivery.{flashed_one, flashed_two, received, claim, claimed, job_of, jobs, ten, after_ten, inactive};
ghost use Rattle.worked_rows.specs.Releases.{one_embargoed};

/// Of a feed of two, with nothing acknowledged: a receipt for three is ahead, one for two is kept, and what is
/// acknowledged already keeps no entry.
pub fn receipts_count_what_a_feed_has()
    ensures accepted { length flashed_two ≡ 3 }
    ensures ahead { (receipt flashed_two alpha 3 1000).answer ≡ Denied (ReceiptAhead 2) }
    ensures first { (receipt flashed_two alpha 2 1000).answer ≡ done 4 0 0 0 }
    ensures first_entry { (receipt flashed_two alpha 2 1000).more ≡ Some (entry_of 1000 (Receipt alpha 2)) }
    ensures again { (receipt (received 2 flashed_two) alpha 2 1000).answer ≡ done 0 0 0 0 }
    ensures again_entry { (receipt (received 2 flashed_two) alpha 2 1000).more ≡ None }
    ensures none { (receipt (received 2 flashed_two) alpha 0 1000).answer ≡ done 0 0 0 0 }
    ensures none_entry { (receipt (received 2 flashed_two) alpha 0 1000).more ≡ None }
{}

/// An entry that is never acknowledged is pushed ten times, each time after a longer wait; then its feed is paused
/// until it is resumed.
pub fn ten_attempts_pause_a_feed()
    ensures accepted { length after_ten ≡ 12 }
    ensures too_early { (write : Writer) → claim write 1059 (claimed 1000 flashed_one) ≡ Idle (Some 1060) }
    ensures each { (write : Writer) → jobs write ten flashed_one ≡ replicate 10 (Some (alpha, 1)) }
    ensures paused { is_paused after_ten alpha ≡ true }
    ensures idle { (write : Writer) → claim write 30000 after_ten ≡ Idle None }
    ensures resumed { told_next after_ten (Resume alpha) 30000 ≡ done 13 0 0 0 }
    ensures again { (write : Writer) → job_of (claim write 30000 (asked 30000 (Resume alpha ∷ []) after_ten)) ≡ Some (alpha, 1) }
{}

/// What is due to a subscriber stays due: it is pushed also once the subscriber is inactive.
pub fn inactive_subscriber_is_served()
    ensures accepted { length inactive ≡ 3 }
    ensures job { (write : Writer) → job_of (claim write 1000 inactive) ≡ Some (alpha, 1) }
{}

/// A receipt is asked of the feed as the last entry left it: what was released since counts only behind a tick.
pub fn receipt_is_asked_of_the_last_entry()
    ensures before { (receipt one_embargoed alpha 2 2500).answer ≡ Denied (ReceiptAhead 1) }
    ensures behind { (receipt (ticked one_embargoed 2500) alpha 2 2500).answer ≡ done 11 0 0 0 }
{}
