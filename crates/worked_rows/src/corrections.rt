//! To whom corrections and kills are due.
ghost use Rattle.std.specs.Prelude.{◌≡◌, [], ◌∷◌, length};
ghost use Rattle.news_types.specs.declared.words.Kind.TheVariants.{First, Correct, Kill};
ghost use Rattle.news_types.specs.declared.query.Answer.TheVariants.{Feed};
ghost use Rattle.news_types.specs.Feeds.{feed};
ghost use Rattle.news_types.specs.Answers.{feed_answer};
ghost use Rattle.worked_rows.specs.Examples.{alpha, beta, gamma, kinds, row};
ghost use Rattle.worked_rows.specs.Corrections.{killed, flashed, corrected, corrected_for_nobody, corrected_for_a_former};

/// A kill goes to all who had the story, also to one who is inactive by now, and to nobody else.
pub fn kill_reaches_all_who_had_the_story()
    ensures accepted { length killed ≡ 7 }
    ensures alpha_has { kinds (feed killed alpha) ≡ First ∷ Kill ∷ [] }
    ensures beta_has { kinds (feed killed beta) ≡ First ∷ Kill ∷ [] }
    ensures gamma_has { kinds (feed killed gamma) ≡ [] }
{}

/// A correction goes to those who are permitted the new story, though they had none before: it is the first
/// entry of such a feed.
pub fn correction_reaches_the_newly_permitted()
    ensures accepted { length corrected ≡ 7 }
    ensures flash { kinds (feed flashed gamma) ≡ [] }
    ensures correction { kinds (feed corrected gamma) ≡ Correct ∷ [] }
    ensures answer { feed_answer corrected gamma 0 ≡ Feed gamma 1 (row 1 1 2 Correct 2 1000 ∷ []) }
{}

/// A correction goes to those who had an earlier publication of the item, also to one who is inactive by now. One that
/// was withdrawn before its release does not count.
pub fn correction_reaches_those_who_had_the_story()
    ensures accepted { length corrected_for_a_former ≡ 5 }
    ensures former { kinds (feed corrected_for_a_former alpha) ≡ First ∷ Correct ∷ [] }
    ensures withdrawn_accepted { length corrected_for_nobody ≡ 12 }
    ensures withdrawn { kinds (feed corrected_for_nobody alpha) ≡ [] }
{}
