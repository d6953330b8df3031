//! Laws on the exchange of Descriptions, each carried by a function that calls those that it rests
//! on: what a router makes of the headers that a neighbor describes to it.
ghost use Rattle.agreement_laws.specs.Requests.{RequestsAreMet, WhatIsAcceptedIsRequested};
ghost use Rattle.agreement_laws.specs.Stays.{RequestsStay};
ghost use Rattle.agreement_laws.specs.TakenIn.{WhatAFullNeighborDescribedWasTakenIn};
ghost use Rattle.agreement_laws.specs.WorkedRequests.{WorkedRequests};

use crate::ranks_follow_the_comparison;

/// In each event a request stays on its list, unless an instance that is as new is held, or was and
/// left at MaxAge in the event; or another Description with a header of its key is accepted; or the
/// conversation is over (RFC 2328, sections 10.9, 13 and 13.3). It asks that the router is in
/// order, as it is in every run.
pub fn requests_are_met()
    ensures { RequestsAreMet }
{
    ranks_follow_the_comparison();
}

/// Of each Description that is accepted, what the last header of a key names is requested after the
/// event, or an instance that is as new is held, or was and left at MaxAge in the event (RFC 2328,
/// section 10.6). It asks that the router is in order, as it is in every run.
pub fn what_is_accepted_is_requested()
    ensures { WhatIsAcceptedIsRequested }
{
    ranks_follow_the_comparison();
}

/// What is requested stays so until an LSA of its key comes: if no copy is held, and the key isn't
/// the router's own, the last header of a key in an accepted Description is requested after the
/// event; and a request stays in each event whose packet brings no LSA of the key, unless another
/// Description with a header of it is accepted, or the conversation is over (RFC 2328, sections
/// 10.6, 10.9, 13 and 13.3). It asks that the router is in order, as it is in every run.
pub fn requests_stay()
    ensures { RequestsStay }
{
    ranks_follow_the_comparison();
}

/// After every run: since a router accepted a Description of a neighbor that is Full by now, in
/// their present conversation, it has held an instance as new as what the last header of a key
/// names, or one that left at MaxAge (RFC 2328, sections 10.3, 10.6 and 10.9).
pub fn what_a_full_neighbor_described_was_taken_in()
    ensures { WhatAFullNeighborDescribedWasTakenIn }
{
    ranks_follow_the_comparison();
}

/// Worked cases: of two headers of a key the later one is requested, even an older instance, unless
/// it isn't wanted; a Description for larger packets, with a header of an unknown type, or after
/// the exchange isn't accepted; without an event nothing is taken in.
pub fn worked_requests()
    ensures { WorkedRequests }
{}
