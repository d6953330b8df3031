//! Laws about the candidates and the routing table, and worked databases with their candidates,
//! each the contract of a function with an empty body (RFC 2328, sections 16.1 and 16.4). Laws of
//! forwarding by them, among routers of any make and among running ones.
#![tactic(auto)]

ghost use Rattle.route_laws.specs.Laws.{AnswersToAllAreNotStale, BoundaryWaysAreDetermined};
ghost use Rattle.route_laws.specs.Laws.{ForwardingIsDetermined, TablesAreDetermined};
ghost use Rattle.route_laws.specs.Laws.{TablesArePartsOfCandidates};
ghost use Rattle.route_laws.specs.Worked.{WorkedSquare, WorkedTwoRouters};
ghost use Rattle.route_laws.specs.WorkedExternals.{WorkedExternals};
ghost use Rattle.route_laws.specs.WorkedOffers.{WorkedOffers};
ghost use Rattle.route_laws.specs.WorkedSummaries.{WorkedSummaries};
ghost use Rattle.route_laws.specs.WorkedTransit.{WorkedTransit};
ghost use Rattle.route_laws.specs.WorkedUncounted.{WorkedUncounted};

pub mod forwarding;
pub mod kept;
pub mod networks;
pub mod premises;

/// A forwarding address has one distance and one set of next hops (RFC 2328, section 16.4).
pub fn forwarding_is_determined()
    ensures { ForwardingIsDetermined }
{}

/// An AS boundary router has one distance and one set of next hops, within the area or by area
/// border routers (RFC 2328, section 16.4).
pub fn boundary_ways_are_determined()
    ensures { BoundaryWaysAreDetermined }
{}

/// A database and answers determine the table.
pub fn tables_are_determined()
    ensures { TablesAreDetermined }
{}

/// The table consists of the candidates that the answers let in: it is empty before any answers,
/// and has all candidates if all are let in.
pub fn tables_are_parts_of_candidates()
    ensures { TablesArePartsOfCandidates }
{}

/// Right after answers to all candidates the table isn't stale.
pub fn answers_to_all_are_not_stale()
    ensures { AnswersToAllAreNotStale }
{}

/// A stub network with metric 10 behind two neighbors, all links with cost 5: one route with cost
/// 20 by both interfaces, in the table if the answer for it is 0, and not if it is 1.
pub fn worked_square()
    ensures { WorkedSquare }
{}

/// The candidates of one of two routers on a link, also with a type 1 and a type 2 external
/// destination at the other one.
pub fn worked_two_routers()
    ensures { WorkedTwoRouters }
{}

/// The candidates if the other router advertises external destinations of both types, by itself or
/// by a forwarding address, and other AS-external-LSAs offer nothing (RFC 2328, section 16.4).
pub fn worked_externals()
    ensures { WorkedExternals }
{}

/// The candidates over a transit network: ways with the same cost over it and beside it, external
/// destinations of two routers at one cost and with a forwarding address in two networks, and
/// routers that don't count (RFC 2328, sections 16.1 and 16.4).
pub fn worked_transit()
    ensures { WorkedTransit }
{}

/// The candidates if links to other routers don't count: with metric 0, by no address of the
/// router's own, virtual, or without a link back (RFC 2328, section 16.1).
pub fn worked_uncounted()
    ensures { WorkedUncounted }
{}

/// Two offers by one router at one cost, with the tags 5 and 3, result in one route with the tag 3;
/// two type 2 external ones with one metric, at the distances 10 and 20, in the nearer one; two
/// with the metrics 10 and 20, the first of them farther, in the first one; one network intra-area
/// at 100 and inter-area at 15, in the intra-area one (RFC 2328, sections 11 and 16.4).
pub fn worked_offers()
    ensures { WorkedOffers }
{}

/// The candidates if neighbors advertise a network and AS boundary routers in other areas, by
/// whether they are area border routers: a boundary router within the area is reached there, even
/// if it is advertised as nearer, and one that two neighbors advertise by the nearer way (RFC 2328,
/// sections 16.2 and 16.4).
pub fn worked_summaries()
    ensures { WorkedSummaries }
{}
