//! What a scheme does with what comes in.
ghost use Rattle.std.specs.Prelude.{◌≡◌, [], ◌∷◌, codes, length, Some, None};
ghost use Rattle.std.specs.Option.{option_map};
ghost use Rattle.news_types.specs.declared.words.State.TheVariants.{Published, Ingested};
ghost use Rattle.news_types.specs.Items.{Item};
ghost use Rattle.news_types.specs.Publications.{item, state};
ghost use Rattle.news_types.specs.Feeds.{feed};
ghost use Rattle.worked_rows.specs.Examples.{alpha, done, numbers, told_ingest, usable};
ghost use Rattle.worked_rows.specs.Routing.{wire, incoming_of_city, with_scheme, at_night, by_day};

/// A story that comes in by night is routed to the desk and published at once; one that comes in by day waits
/// without a desk.
pub fn scheme_publishes_by_night()
    ensures accepted { length by_day ≡ 6 }
    ensures reply { told_ingest with_scheme wire (usable (codes "a")) 3600 ≡ done 5 1 1 3600 }
    ensures night_state { state at_night 1 3600 ≡ Some Published }
    ensures night_place { option_map (λ (it : Item). it.place) (item at_night 1) ≡ Some (Some incoming_of_city) }
    ensures night_feed { numbers (feed at_night alpha) ≡ 1 ∷ [] }
    ensures day_state { state by_day 2 36000 ≡ Some Ingested }
    ensures day_place { option_map (λ (it : Item). it.place) (item by_day 2) ≡ Some None }
    ensures day_feed { numbers (feed by_day alpha) ≡ 1 ∷ [] }
{}
