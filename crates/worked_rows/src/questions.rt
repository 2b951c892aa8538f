//! Questions for publications by their number.
ghost use Rattle.std.specs.Prelude.{◌≡◌};
ghost use Rattle.news_types.specs.declared.query.Answer.TheVariants.{Publication, NoPublication, Number};
ghost use Rattle.news_types.specs.declared.query.Query.TheVariants as asked;
ghost use Rattle.worked_rows.specs.Lags.{killed_early};
ghost use Rattle.worked_rows.specs.Questions.{told_of, the_kill};

/// A publication is shown whoever it is due to. Numbers begin with 1, and none is past the count.
pub fn publications_are_shown_by_number()
    ensures kill { told_of killed_early (asked.Publication 2) ≡ Publication the_kill }
    ensures none { told_of killed_early (asked.Publication 0) ≡ NoPublication 2 }
    ensures past { told_of killed_early (asked.Publication 3) ≡ NoPublication 2 }
{}

/// The newest publication of an item below a number.
pub fn publications_of_an_item_are_found()
    ensures newest { told_of killed_early (asked.LastOf 1 100) ≡ Number 2 }
    ensures before { told_of killed_early (asked.LastOf 1 2) ≡ Number 1 }
    ensures first { told_of killed_early (asked.LastOf 1 1) ≡ Number 0 }
    ensures other { told_of killed_early (asked.LastOf 2 100) ≡ Number 0 }
{}
