//! Laws of forwarding while the databases of all routers say the same, each the contract of a
//! function that does nothing (RFC 2328, sections 11 and 16): no packet visits a router twice, and
//! each one arrives. Worked examples show that the premises can be met, and what happens without
//! them.
ghost use Rattle.route_laws.specs.Forwarding.{EachHopIsNearer, LongestPrefixesAgree};
ghost use Rattle.route_laws.specs.Forwarding.{NoPacketReturns, PacketsArrive};
ghost use Rattle.route_laws.specs.Forwarding.{RoutesEndAtTheNetwork};
ghost use Rattle.route_laws.specs.Outward.{AllPacketsArrive, EachHopLeadsToAnOriginator};
ghost use Rattle.route_laws.specs.Outward.{NoPacketReturnsOnItsWayOut};
ghost use Rattle.route_laws.specs.WorkedForwarding.{OriginatorsMayGetPacketsBack, VetoesMayLoop};
ghost use Rattle.route_laws.specs.WorkedForwarding.{StaleRouterLsasMayLoop, WorkedRow};

use candidates::laws::{candidates_are_cheapest_walks, every_offer_has_a_candidate};

/// A router forwards packets by an intra-area route to a router that has one with the same prefix,
/// which is intra-area too and has a lower cost (RFC 2328, section 16.1).
pub fn each_hop_is_nearer()
    ensures { EachHopIsNearer }
{
    candidates_are_cheapest_walks();
    every_offer_has_a_candidate();
}

/// A packet for a network within the area visits no router twice, and the number of routers after
/// the first one is at most the cost of the first one's route.
pub fn no_packet_returns()
    ensures { NoPacketReturns }
{
    candidates_are_cheapest_walks();
}

/// A router with an intra-area route forwards packets, or is attached to the network itself.
pub fn routes_end_at_the_network()
    ensures { RoutesEndAtTheNetwork }
{
    candidates_are_cheapest_walks();
}

/// If the same networks are let in at all routers, a packet to an address is forwarded by routes
/// with one prefix, if the longest match at each router is an intra-area route.
pub fn longest_prefixes_agree()
    ensures { LongestPrefixesAgree }
{
    candidates_are_cheapest_walks();
    every_offer_has_a_candidate();
}

/// A packet for a network within the area is forwarded until it reaches a router that is attached
/// to the network.
pub fn packets_arrive()
    ensures { PacketsArrive }
{
    candidates_are_cheapest_walks();
    every_offer_has_a_candidate();
}

/// A router forwards packets for another area or an external destination to a router that is nearer
/// to the originator of the LSA from which the route comes. Unless that is the originator, it has a
/// better route with the same prefix (RFC 2328, sections 16.2 and 16.4).
pub fn each_hop_leads_to_an_originator()
    ensures { EachHopLeadsToAnOriginator }
{
    every_offer_has_a_candidate();
}

/// A packet by a route of any kind visits no router, with the same addresses, twice before it
/// reaches the originator of the LSA that the route comes from.
pub fn no_packet_returns_on_its_way_out()
    ensures { NoPacketReturnsOnItsWayOut }
{
    candidates_are_cheapest_walks();
}

/// A packet by a route of any kind is forwarded, whichever next hops the routers choose, until a
/// router is attached to the network or forwards it to the originator of the LSA that its route
/// comes from.
pub fn all_packets_arrive()
    ensures { AllPacketsArrive }
{
    candidates_are_cheapest_walks();
    every_offer_has_a_candidate();
}

/// Three routers in a row, with a network of 512 addresses at the left one, one of 256 of these at
/// the right one, and an external destination that both announce: the candidates of all three, and
/// packets that are forwarded along the row and arrive.
pub fn worked_row()
    ensures { WorkedRow }
{}

/// The laws don't cover a veto at one router: if only the middle router's program doesn't let in
/// the route to the smaller network, a packet for it goes back and forth between two routers.
pub fn vetoes_may_loop()
    ensures { VetoesMayLoop }
{}

/// The laws don't cover a router-LSA with former addresses: if the middle router has another
/// address than in its LSA, it knows no way to the right one, although the left router knows one
/// through it, and a packet goes back and forth between the two.
pub fn stale_router_lsas_may_loop()
    ensures { StaleRouterLsasMayLoop }
{}

/// The laws end at an originator: one that forwards by OSPF only ignores its own LSA, and may get
/// back what it sends toward another originator.
pub fn originators_may_get_packets_back()
    ensures { OriginatorsMayGetPacketsBack }
{}
