//! Subscribers that get what is published later.
ghost use Rattle.std.specs.Prelude.{◌≡◌, ◌≤◌, ℕ, [], ◌∷◌, length};
ghost use Rattle.news_types.specs.declared.query.Answer.TheVariants.{Feed};
ghost use Rattle.news_types.specs.declared.words.Kind.TheVariants.{First};
ghost use Rattle.news_types.specs.Answers.{feed_answer};
ghost use Rattle.news_types.specs.Calls.{ticked};
ghost use Rattle.worked_rows.specs.Examples.{alpha, beta, numbers, feed_asked, row};
ghost use Rattle.worked_rows.specs.Lags.{flashed_late, killed_early, killed_late, corrected_early, lag_ended, lag_kept};

/// A subscriber with a lag of ten minutes gets a story ten minutes later. Its feed shows the story's own release.
pub fn lag_comes_on_top_of_the_release()
    ensures accepted { length flashed_late ≡ 4 }
    ensures at_once { numbers (feed_asked flashed_late alpha 1200) ≡ 1 ∷ [] }
    ensures early { numbers (feed_asked flashed_late beta 1599) ≡ [] }
    ensures late { numbers (feed_asked flashed_late beta 1600) ≡ 1 ∷ [] }
    ensures shown { feed_answer (ticked flashed_late 1600) beta 0 ≡ Feed beta 1 (row 1 1 1 First 1 1000 ∷ []) }
{}

/// A kill goes at once. Who has not been given the story by then never gets it, and gets no kill; who has been
/// gets the kill.
pub fn kill_withdraws_what_was_not_given()
    ensures accepted { length killed_early ≡ 5 }
    ensures alpha_has { numbers (feed_asked killed_early alpha 1300) ≡ 1 ∷ 2 ∷ [] }
    ensures beta_has { (later : ℕ) → numbers (feed_asked killed_early beta later) ≡ [] }
    ensures accepted_late { length killed_late ≡ 5 }
    ensures beta_has_both { numbers (feed_asked killed_late beta 1600) ≡ 1 ∷ 2 ∷ [] }
{}

/// A correction has its own lag, and comes no earlier than what it corrects, though the lag is shorter by then.
pub fn correction_comes_no_earlier()
    ensures accepted { length corrected_early ≡ 5 }
    ensures story { numbers (feed_asked corrected_early beta 1600) ≡ 1 ∷ [] }
    ensures almost { numbers (feed_asked corrected_early beta 1899) ≡ 1 ∷ [] }
    ensures both { numbers (feed_asked corrected_early beta 1900) ≡ 1 ∷ 2 ∷ [] }
    ensures accepted_ended { length lag_ended ≡ 6 }
    ensures early { numbers (feed_asked lag_ended beta 1599) ≡ [] }
    ensures at_once { numbers (feed_asked lag_ended beta 1600) ≡ 1 ∷ 2 ∷ [] }
{}

/// A setting that says nothing of the lag keeps it.
pub fn lag_stays_unless_it_is_set()
    ensures accepted { length lag_kept ≡ 6 }
    ensures early { numbers (feed_asked lag_kept beta 2099) ≡ 1 ∷ [] }
    ensures late { numbers (feed_asked lag_kept beta 2100) ≡ 1 ∷ 2 ∷ [] }
{}
