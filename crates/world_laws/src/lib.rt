//! What holds of every legal list of entries, and of the world after every list of events.
//!
//! Each function states one law and does nothing: its contract is the law, over the definitions that the
//! contracts of the newsroom's calls cite too.
#![tactic(auto)]

ghost use Rattle.std.specs.Prelude.{◌≡◌, [], ◌∷◌, length};
ghost use Rattle.news_types.specs.Delivery.{acked};
ghost use Rattle.news_types.specs.FeedLaws.{FeedsOnlyGrow, StandsAsSaid};
ghost use Rattle.news_types.specs.Feeds.{feed};
ghost use Rattle.news_types.specs.Due.{is_due_by};
ghost use Rattle.world_laws.specs.Bridge.{CallsAreEvents};
ghost use Rattle.world_laws.specs.Example.{alpha, answers_of, day_answers, evening, fire, goal, contents};
ghost use Rattle.world_laws.specs.Facts.{DueToThoseReached, EachWasPublished, ItemsAreCounted, PublicationsShowItems, PublishingActsPublish, StandsForThoseLeft, StoriesAreNewest, VersionsAreCounted};
ghost use Rattle.world_laws.specs.FeedOrder.{CorrectionsComeLater, CorrectionsReach, EndsWithKills, FeedsInOrder, KillsReach, OnlyGrow, ReachesAll};
ghost use Rattle.world_laws.specs.Growth.{NothingIsLost};
ghost use Rattle.world_laws.specs.Headline.{HeadlineHolds, ReceiptsHold, ReceiptsHoldAnyhow};
ghost use Rattle.world_laws.specs.World.{happens};
ghost use Rattle.world_laws.specs.WrongWorlds.{answers_before_it_keeps, answers_from_before, applies_repeats, claims_without_a_tick, dates_ahead, doubts_what_it_kept};
ghost use Rattle.world_laws.specs.WrongWorlds.{forgets_at_a_stop, halts_twice, invents_a_kill, keeps_any_receipt, keeps_nothing, keeps_what_it_refused, replies_anew, sends_before_release};
ghost use Rattle.world_laws.specs.WrongWorlds.{receipts_before_it_keeps, receiver_doubts_what_it_kept, skips_a_frame, takes_anothers_frame};
ghost use Rattle.world_laws.specs.WrongWorlds.{despite_kills, in_order_of_number, to_those_permitted_now};

/// What a feed has, it keeps: where one legal list goes on from another, each feed of the longer begins
/// with that of the shorter.
pub fn feed_prefix_law()
    ensures { FeedsOnlyGrow }
{}

/// What the items and the publications of a legal list are, said of its entries. There are as many items as entries made;
/// an item's version is 1, and one more for each entry that added one; its story is the newest that it was given. Each
/// entry that is to publish does; each publication was made by such an entry, and shows the item as it is behind that.
/// It is due to those whom it reaches, by the list before: a first one to those to whom it is permitted, later by their
/// lag; a correction to these and to all for whom the story stands, no earlier than any of that; a kill or recall to
/// exactly those who have it by then. It stands until its item is descheduled before its release; and for each of its
/// subscribers until a kill or recall of its item comes before its release for this one.
pub fn facts_law()
    ensures items { ItemsAreCounted }
    ensures versions { VersionsAreCounted }
    ensures stories { StoriesAreNewest }
    ensures publish { PublishingActsPublish }
    ensures published { EachWasPublished }
    ensures shown { PublicationsShowItems }
    ensures due { DueToThoseReached }
    ensures stands { StandsAsSaid }
    ensures left { StandsForThoseLeft }
{}

/// A feed is in order of release for its subscriber, and of one release in order of number; so each publication
/// stands there once. None stands there before its release for that subscriber, which is no earlier than its own.
pub fn feed_order_law()
    ensures { FeedsInOrder }
{}

/// In each feed a correction, kill or recall stands behind every earlier publication of its item. Behind a kill or
/// recall nothing of its item is released to anybody: what waits for a subscriber then never comes.
pub fn corrections_law()
    ensures behind { CorrectionsComeLater }
    ensures end { EndsWithKills feed }
{}

/// A correction is due to everyone who was due what it concerns, a kill or recall to everyone who has it, whatever
/// is permitted now. So whose feed has the story, that feed has the kill; and a correction it has, or is to have,
/// unless it has the kill.
pub fn corrections_reach_law()
    ensures due { ReachesAll is_due_by }
    ensures kills { KillsReach }
    ensures corrections { CorrectionsReach }
{}

/// After every list of events the headline holds: what each receiver holds is a prefix of its subscriber's
/// feed; the list keeps what was acknowledged, once and in order, and nothing that was not asked for; and every
/// answer is the newsroom's at its place in the list, which no later answer is behind. Where no receipt of a
/// subscriber is forged, nothing of it is acknowledged that is not held.
pub fn world_law()
    ensures headline { HeadlineHolds happens }
    ensures receipts { ReceiptsHold happens }
{}

/// Whatever happens, what was kept, answered, sent or held stays: the list of entries, the answers and what
/// was sent go on from what they were, and each receiver's frames too.
pub fn growth_law()
    ensures { NothingIsLost }
{}

/// What the contracts of the newsroom's calls cite is what the events of the world do: each call with its answer, a frame
/// that comes to a receiver with the receipt that goes out, the frame that was answered and is sent, and what an append and
/// a crash leave of the server and of a receiver.
pub fn calls_are_events()
    ensures { CallsAreEvents }
{}

/// The world moves: a day with failed appends, stops of both sides, an embargo and frames that come twice
/// ends with twelve entries, both stories held in order of release, both acknowledged, and these answers.
pub fn world_moves()
    ensures entries { length evening.server.list ≡ 12 }
    ensures held { contents (evening.receivers alpha).held ≡ goal ∷ fire ∷ [] }
    ensures acked { acked evening.server.list alpha ≡ 2 }
    ensures answers { answers_of evening ≡ day_answers }
{}

/// The laws forbid these receivers: one that takes frame 2 before frame 1, one that takes the frames of
/// others, one that leaves in doubt what it kept, one that sends a receipt before the frame is kept. A
/// forged receipt is forbidden by the one premise alone.
pub fn wrong_receivers()
    ensures skip { HeadlineHolds skips_a_frame → ⊥ }
    ensures anyone { HeadlineHolds takes_anothers_frame → ⊥ }
    ensures doubt { HeadlineHolds receiver_doubts_what_it_kept → ⊥ }
    ensures receipt { HeadlineHolds receipts_before_it_keeps → ⊥ }
    ensures forged { ReceiptsHoldAnyhow happens → ⊥ }
{}

/// The laws forbid these servers. Of what they keep: one that forgets the list at a stop, one that says Done and keeps
/// nothing, one that leaves in doubt what it kept, one that applies a repeat again, one whose claim keeps no tick, one
/// that keeps a receipt past the feed. Of what was asked: one that invents a kill, one that keeps a halt twice, one
/// that dates entries ahead, one that keeps what it refused. Of what they say: one that answers Done before the entry
/// is kept, one that answers a repeat with a new reply, one that answers from an old list, one that sends a story
/// before its release.
pub fn wrong_servers()
    ensures forgets { HeadlineHolds forgets_at_a_stop → ⊥ }
    ensures nothing { HeadlineHolds keeps_nothing → ⊥ }
    ensures doubt { HeadlineHolds doubts_what_it_kept → ⊥ }
    ensures repeat { HeadlineHolds applies_repeats → ⊥ }
    ensures claim { HeadlineHolds claims_without_a_tick → ⊥ }
    ensures receipt { HeadlineHolds keeps_any_receipt → ⊥ }
    ensures invented { HeadlineHolds invents_a_kill → ⊥ }
    ensures twice { HeadlineHolds halts_twice → ⊥ }
    ensures moment { HeadlineHolds dates_ahead → ⊥ }
    ensures refused { HeadlineHolds keeps_what_it_refused → ⊥ }
    ensures answer { HeadlineHolds answers_before_it_keeps → ⊥ }
    ensures reply { HeadlineHolds replies_anew → ⊥ }
    ensures old { HeadlineHolds answers_from_before → ⊥ }
    ensures early { HeadlineHolds sends_before_release → ⊥ }
{}

/// The laws forbid feeds in order of publication numbers, feeds that have what was taken back before it came, and
/// kills that go to those who are permitted now.
pub fn wrong_feeds()
    ensures order { OnlyGrow in_order_of_number → ⊥ }
    ensures waiting { EndsWithKills despite_kills → ⊥ }
    ensures kill { ReachesAll to_those_permitted_now → ⊥ }
{}
