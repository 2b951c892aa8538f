//! One subscriber's view: what is answered about its feed, whatever other subscribers have.
#![tactic(auto)]

ghost use Rattle.feed_views.specs.Views.{FeedsAreViews};

/// The answers about a subscriber's feed and its frames are functions of that feed, its format, how frames are written, and the
/// question: two lists that agree there give equal answers, whatever else they have.
pub fn views_law()
    ensures { FeedsAreViews }
{}
