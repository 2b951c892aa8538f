//! Conditions on stories, and products.
ghost use Rattle.std.specs.Prelude.{◌≡◌, [], ◌∷◌, length, true, false};
ghost use Rattle.news_types.specs.Conditions.{is_true};
ghost use Rattle.news_types.specs.Feeds.{feed};
ghost use Rattle.worked_rows.specs.Examples.{alpha, numbers};
ghost use Rattle.worked_rows.specs.Permission.{blocking_without_filter, on_headlines, like_fire, starts_strasse, fire_in_strasse, sharp};

/// Text is compared without its case, as Unicode folds it: `fire in Strasse` is like `FIRE` alone, and `straße`
/// starts with `STRASSE` alone.
pub fn text_is_compared_without_its_case()
    ensures accepted { length on_headlines ≡ 2 }
    ensures fire_like { is_true on_headlines fire_in_strasse like_fire ≡ true }
    ensures fire_starts { is_true on_headlines fire_in_strasse starts_strasse ≡ false }
    ensures sharp_like { is_true on_headlines sharp like_fire ≡ false }
    ensures sharp_starts { is_true on_headlines sharp starts_strasse ≡ true }
{}

/// A product without a filter permits every story, one that blocks too.
pub fn product_without_a_filter_permits_all()
    ensures accepted { length blocking_without_filter ≡ 3 }
    ensures permitted { numbers (feed blocking_without_filter alpha) ≡ 1 ∷ [] }
{}
