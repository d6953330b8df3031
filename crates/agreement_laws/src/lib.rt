//! Laws about when the databases of neighbors agree, each the contract of a function that does
//! nothing: how new instances are, and that what a router holds was exchanged with its neighbors;
//! and on the exchange of Descriptions: what is requested, what moves it, and how it goes on
//! between two. Worked conversations between routers are theorems about the rules (RFC 2328,
//! sections 9 to 13), each for every router that satisfies the stated conditions.
#![tactic(auto)]

pub mod answers;
mod conversations;
pub mod descriptions;
pub mod requests;

ghost use Rattle.agreement_laws.specs.CopiesClimb.{CopiesClimb};
ghost use Rattle.agreement_laws.specs.HeldWasExchanged.{NothingIsLeftToDescribe};
ghost use Rattle.agreement_laws.specs.HeldWasExchanged.{WasExchangedWithFullNeighbors};
ghost use Rattle.agreement_laws.specs.HeldWasExchanged.{WhatIsHeldWasExchanged};
ghost use Rattle.agreement_laws.specs.NeighborsAgree.{NeighborsAgreeOnWhatWasRenewed};
ghost use Rattle.agreement_laws.specs.Ranks.{RanksFollowTheComparison};
ghost use Rattle.agreement_laws.specs.SaidIsHeld.{WhatIsSaidIsHeld};
ghost use Rattle.agreement_laws.specs.WorkedCopies.{WorkedCopies};
ghost use Rattle.agreement_laws.specs.WorkedExchanges.{WorkedExchanges};
ghost use Rattle.agreement_laws.specs.WorkedHistory.{AHistoryMeetsThePremises};
ghost use Rattle.agreement_laws.specs.WorkedNeighbors.{WorkedNeighbors};
ghost use Rattle.agreement_laws.specs.WorkedRanks.{WorkedRanks};

pub use conversations::{
    a_last_request_is_met, a_neighbor_is_heard, a_new_lsa_comes_twice, a_tick_originates,
    acknowledgments_take_off_what_they_name, an_adjacency_begins, an_adjacency_is_negotiated,
    an_aged_lsa_comes, an_exchange_as_slave, answers_change_no_database, each_case_is_carried_out,
    each_test_of_the_table_counts, metrics_announce_or_withhold, requests_are_met_by_flooding,
    some_hellos_are_discarded, the_numbers_end, what_is_not_announced_is_flushed,
    what_is_sent_stands_in_order, worked_events,
};

/// How new an instance is, whatever its age below MaxAge, is an order that the comparison of
/// instances refines: a newer instance has no lower rank, and the same instance has the same rank
/// (RFC 2328, section 13.1).
pub fn ranks_follow_the_comparison()
    ensures { RanksFollowTheComparison }
{}

/// After every run from the start, whatever is received: if a router holds an instance that is
/// neither on the retransmission list of a neighbor in Exchange or later nor still to be described
/// to it, then in their present conversation it was described to that neighbor, or the neighbor
/// sent an instance that is at least as new, in a Database Description, a Link State Update or a
/// Link State Acknowledgment (RFC 2328, sections 10.3, 10.6, 13.3 and 13.7).
pub fn what_is_held_was_exchanged()
    ensures { WhatIsHeldWasExchanged }
{}

/// After every run: the Database summary list of a neighbor in Loading or Full is empty (RFC 2328,
/// section 10.3, ExchangeDone).
pub fn nothing_is_left_to_describe()
    ensures { NothingIsLeftToDescribe }
{}

/// So for Full neighbors: if a router holds an instance that isn't on the neighbor's retransmission
/// list, it was described to the neighbor in their present conversation, or the neighbor sent an
/// instance that is at least as new.
pub fn was_exchanged_with_full_neighbors()
    ensures { WasExchangedWithFullNeighbors }
{}

/// In each event a copy stays, or is replaced by one that is at least as new, or is removed from
/// the database, at MaxAge and when it is on no retransmission list (RFC 2328, sections 12.1.6, 13
/// and 14). What is removed was held before the event, or is in its Link State Update, or is an LSA
/// of the router itself. This requires an invariant that holds in every run.
pub fn copies_climb()
    ensures { CopiesClimb }
{}

/// A router holds what it says about LSAs: for each LSA in an event's Link State Updates, before
/// InfTransDelay is added to its age, an instance that is at least as new is held after the event,
/// or was removed at MaxAge in it. The same holds for what an acknowledgment identifies when it
/// arises, unless there was nothing to flush, and for what a Database Description has, when the
/// exchange began (RFC 2328, sections 10.3, 10.7, 13, 13.3 and 13.5 to 13.7). This requires an
/// invariant that holds in every run.
pub fn what_is_said_is_held()
    ensures { WhatIsSaidIsHeld }
{}

/// Full neighbors agree on what was refreshed, in every history of two neighbors in any
/// environment, with loss, repetition, delay, reordering and restarts: if one is Full with the
/// other, and an LSA isn't on its retransmission list, the other holds an instance that is at least
/// as new; and if that is so for both, they hold the same instance. Exceptions: in their present
/// conversation, it described one that is at least as new to the other; or the other one sent one
/// that is at least as new, and has been without a copy since, or has restarted, or had none to
/// flush (RFC 2328, sections 10.3 and 13).
pub fn neighbors_agree_on_what_was_renewed()
    ensures { NeighborsAgreeOnWhatWasRenewed }
{}

/// Worked examples of ranks: by sequence number, then checksum, then MaxAge; other ages don't
/// matter, although section 13.1 of RFC 2328 considers them, which by itself is no order.
pub fn worked_ranks()
    ensures { WorkedRanks }
{}

/// Worked examples of what leaves a database: nothing of a key of another router that wasn't held
/// and that the event doesn't bring; at a Tick only a copy that was held.
pub fn worked_copies()
    ensures { WorkedCopies }
{}

/// Worked examples of what was exchanged in a conversation: each header in the Database Description
/// with which a router answers an initial one, and each header in a packet from the neighbor;
/// nothing without an event, and nothing after the conversation is over.
pub fn worked_exchanges()
    ensures { WorkedExchanges }
{}

/// Worked examples of two neighbors: when an instance is at least as new as another, whatever their
/// ages; a router that restarts has lost all that it sent, and one that keeps its copy loses
/// nothing that it sent since its start; what was exchanged counts only while the conversation
/// continues.
pub fn worked_neighbors()
    ensures { WorkedNeighbors }
{}

/// A history of two routers with seven events: a Hello of each, and the database exchange, after
/// which the slave is Full with the master, holds its own router-LSA and doesn't have it on the
/// retransmission list. So the premises of `neighbors_agree_on_what_was_renewed` can be met at
/// once. The master doesn't have the LSA, which was described to it and is requested now: so the
/// law needs that exception (RFC 2328, sections 10.3, 10.5, 10.6 and 10.8).
pub fn a_history_meets_the_premises()
    ensures { AHistoryMeetsThePremises }
{}
