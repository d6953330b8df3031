//! Laws about the neighbor state machine, each the contract of a function with an empty body.
ghost use Rattle.adjacency.specs.Laws.{FullHasNothingToRequest, OnlyTheSameInstanceIsAcknowledged};
ghost use Rattle.adjacency.specs.Laws.{WhatIsOutstandingIsRequestedAgain};
ghost use Rattle.adjacency.specs.Rooms.{StepsHaveRoom};
ghost use Rattle.adjacency.specs.Worked.{AWorkedConversation};

/// A neighbor that becomes Full at the end of the exchange or of Loading has an empty request list
/// (RFC 2328, section 10.3).
pub fn full_has_nothing_to_request()
    ensures { FullHasNothingToRequest }
{}

/// An acknowledgment of another instance than the one on the retransmission list removes nothing
/// (RFC 2328, section 13.7).
pub fn only_the_same_instance_is_acknowledged()
    ensures { OnlyTheSameInstanceIsAcknowledged }
{}

/// A retransmitted Link State Request has exactly the outstanding keys (RFC 2328, section 10.9).
pub fn what_is_outstanding_is_requested_again()
    ensures { WhatIsOutstandingIsRequestedAgain }
{}

/// A conversation between 1.1.1.1 and 2.2.2.2: its attempts, the negotiation of master and slave,
/// and a duplicate Database Description.
pub fn a_worked_conversation()
    ensures { AWorkedConversation }
{}

/// What is sent to a neighbor fits into packets of at most 8,192 bytes, and so does what is kept
/// for retransmission (RFC 2328, sections 10.8 and 10.9).
pub fn steps_have_room()
    ensures { StepsHaveRoom }
{}
