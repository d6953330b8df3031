//! Laws about events and runs of the router, each the contract of a function with an empty body:
//! invariants at every point of a run, and what is known and acknowledged.
#![tactic(auto)]

mod laws;

pub use laws::{
    acknowledged_was_received, another_acknowledgment_takes_nothing_off,
    events_hold_only_what_is_known, events_keep_what_is_known, full_neighbors_request_nothing,
    instances_stay_in_range, lists_are_sound, only_router_and_external_lsas_are_wanted,
    others_stay_within_limits, retransmissions_are_of_the_database, routers_stay_in_order,
    texts_are_lawful, updates_tell_what_they_bear, what_is_left_is_requested,
    what_is_taken_off_was_told,
};
