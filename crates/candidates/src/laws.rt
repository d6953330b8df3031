//! Laws of the candidates for the routing table, each the contract of a function with an empty body
//! (RFC 2328, sections 16.1 and 16.4).
ghost use Rattle.candidates.specs.Laws.{CandidatesAreCheapestWalks, EveryOfferHasACandidate};

/// A prefix that is offered has a candidate: a list of all candidates has a route for it.
pub fn every_offer_has_a_candidate()
    ensures { EveryOfferHasACandidate }
{}

/// A network that a walk reaches has an intra-area candidate; its cost is the least of any walk,
/// and its next hops are exactly the first interfaces of all walks with that cost (RFC 2328,
/// section 16.1).
pub fn candidates_are_cheapest_walks()
    ensures { CandidatesAreCheapestWalks }
{}
