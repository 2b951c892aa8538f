//! Worked examples: what the definitions of the newsroom say of short lists of requests, as a person would
//! work them out on paper. The checker computes each value.
//!
//! Each function has an empty body, and its clauses are the example: a list of requests and what it is answered,
//! or the feeds that it makes. The lists stand in `specs/`, one file for each file here. The caller is `admin` where
//! none is named, a request has its caller's next number, and moments are seconds, small ones for the reader's sake.
#![tactic(auto)]

mod corrections;
mod delivery;
mod lags;
mod locks;
mod permission;
mod questions;
mod releases;
mod routing;
mod turns;

pub use corrections::{
    correction_reaches_the_newly_permitted, correction_reaches_those_who_had_the_story,
    kill_reaches_all_who_had_the_story,
};
pub use delivery::{
    inactive_subscriber_is_served, receipt_is_asked_of_the_last_entry,
    receipts_count_what_a_feed_has, ten_attempts_pause_a_feed,
};
pub use lags::{
    correction_comes_no_earlier, kill_withdraws_what_was_not_given,
    lag_comes_on_top_of_the_release, lag_stays_unless_it_is_set,
};
pub use locks::{edit_asks_for_desk_state_and_lock, unspike_asks_for_the_named_desk};
pub use permission::{product_without_a_filter_permits_all, text_is_compared_without_its_case};
pub use questions::{publications_are_shown_by_number, publications_of_an_item_are_found};
pub use releases::{
    correction_waits_for_the_release, deschedule_before_the_release, embargo_turns_the_order,
    one_release_keeps_the_order,
};
pub use routing::scheme_publishes_by_night;
pub use turns::{repeat_keeps_no_entry, repeat_needs_no_privilege};
