//! Laws about networks of routers, each the contract of a function that does nothing (RFC 2328,
//! sections 11 and 16): while the databases of all routers say the same, no packet visits a router
//! twice, and it arrives. They are about the routers of the rules of events, with the routing
//! tables that a router returns. Worked topologies show that the premises can be met, and what
//! happens without them.
ghost use Rattle.route_laws.specs.Networks.{EachHopLeadsOn, PacketsArrive};
ghost use Rattle.route_laws.specs.Networks.{RoutersForwardWithoutLoops};
ghost use Rattle.route_laws.specs.WorkedTopologies.{CrossedLinksMayLoop};
ghost use Rattle.route_laws.specs.WorkedTopologies.{DefaultRoutesAreNoEnd};
ghost use Rattle.route_laws.specs.WorkedTopologies.{DifferingDatabasesMayLoop};
ghost use Rattle.route_laws.specs.WorkedTopologies.{EqualAddressesMayLoop, WorkedTopology};
ghost use Rattle.route_laws.specs.WorkedTopologies.{ZeroCostsMayLosePackets};

use crate::forwarding::{
    each_hop_is_nearer, each_hop_leads_to_an_originator, routes_end_at_the_network,
};
use crate::premises::own_router_lsas_meet_the_premises;
use candidates::laws::{candidates_are_cheapest_walks, every_offer_has_a_candidate};

/// Each next hop of a router leads to a router with a better route with the same prefix, or to one
/// that announces the address itself; or it is 0, and the router is attached to the network.
pub fn each_hop_leads_on()
    ensures { EachHopLeadsOn }
{
    candidates_are_cheapest_walks();
    every_offer_has_a_candidate();
    each_hop_is_nearer();
    each_hop_leads_to_an_originator();
    routes_end_at_the_network();
    own_router_lsas_meet_the_premises();
}

/// A packet to an address visits no router twice, until it reaches one that announces the address
/// itself.
pub fn routers_forward_without_loops()
    ensures { RoutersForwardWithoutLoops }
{
    each_hop_leads_on();
}

/// A packet to an address is forwarded until it reaches a router that is attached to its network,
/// or that announces the address itself.
pub fn packets_arrive()
    ensures { PacketsArrive }
{
    candidates_are_cheapest_walks();
    every_offer_has_a_candidate();
    each_hop_is_nearer();
    each_hop_leads_to_an_originator();
    routes_end_at_the_network();
    own_router_lsas_meet_the_premises();
    each_hop_leads_on();
}

/// Three routers in a row, whose databases say the same: a packet to an address in the networks of
/// both ends is forwarded along the row to the smaller one.
pub fn worked_topology()
    ensures { WorkedTopology }
{}

/// A router that announces a default route isn't the end for packets for which it has a longer
/// route: past the middle router of the row, which announces one, a packet is forwarded to the end.
pub fn default_routes_are_no_end()
    ensures { DefaultRoutesAreNoEnd }
{}

/// The laws don't cover links that lead elsewhere: if an interface is connected to another router
/// than its Full neighbor, a packet comes back.
pub fn crossed_links_may_loop()
    ensures { CrossedLinksMayLoop }
{}

/// The laws don't cover databases that differ: if the middle router has restarted, and doesn't know
/// the right one yet, a packet goes back and forth between two routers.
pub fn differing_databases_may_loop()
    ensures { DifferingDatabasesMayLoop }
{}

/// The laws don't cover a router with the same address on two interfaces: if the middle router has
/// two, each of its links uses both, and by one of them a packet comes back. Such a configuration
/// is invalid.
pub fn equal_addresses_may_loop()
    ensures { EqualAddressesMayLoop }
{}

/// The laws don't cover interfaces with cost 0: if that of the left router has cost 0, the router
/// has no way to the others, although they have one to it. So it has no route to a destination that
/// the right router announces with a forwarding address in the left one's network, and a packet
/// that the middle one sends it is lost. Such a configuration is invalid (RFC 2328, section C.3).
pub fn zero_costs_may_lose_packets()
    ensures { ZeroCostsMayLosePackets }
{}
