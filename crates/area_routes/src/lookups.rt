//! How many lookups recalculating vertices takes.
ghost use Rattle.candidates.specs.Nodes.{Ascend};

use crate::surroundings::{Surroundings, index_range_of, network_lsa, router_lsa};
use lsa::{LinkKind, RouterLink, RouterLsa};
use routes::Node;
use words::LinkStateId;

/// A graph is rebuilt if recalculating vertices takes this many lookups more than it has nodes.
pub const SPARE: usize = 64;

fn is_transit_to(link: &RouterLink, id: u32) -> bool {
    link.kind == LinkKind::Transit && link.link_id == id
}

// Whether the LSA has several transit links to this Link ID.
fn has_several(lsa: &RouterLsa, id: u32) -> bool {
    let mut is_one = false;
    for link in lsa.links.as_slice() {
        if is_transit_to(link, id) {
            if is_one {
                return true;
            }
            is_one = true;
        }
    }
    false
}

// The lookups for one link of a router's LSA: one for each node that it may lead to. They count as
// too many if another link leads to the same networks: of such links a graph that is rebuilt has
// only the cheapest, so that they take no more memory than their LSA.
fn lookups_for(at: &Surroundings<'_>, lsa: &RouterLsa, link: &RouterLink) -> usize
    requires { Ascend at.now.nodes.now }
{
    match link.kind {
        LinkKind::PointToPoint => 1,
        LinkKind::Transit => {
            if has_several(lsa, link.link_id) {
                return usize::MAX;
            }
            let (first, end) = index_range_of(at, LinkStateId::new(link.link_id));
            end.saturating_sub(first)
        }
        LinkKind::Stub => 0,
        LinkKind::Virtual => 0,
    }
}

// The lookups for the links of a router's LSA; those that make them more than this many are the
// last that count.
fn lookups_in(at: &Surroundings<'_>, lsa: &RouterLsa, most: usize) -> usize
    requires { Ascend at.now.nodes.now }
{
    let mut lookups = 0usize;
    for link in lsa.links.as_slice() {
        if lookups > most {
            return lookups;
        }
        lookups = lookups.saturating_add(lookups_for(at, lsa, link));
    }
    lookups
}

// The lookups for the vertex of a node.
fn lookups_of(at: &Surroundings<'_>, node: &Node, most: usize) -> usize
    requires { Ascend at.now.nodes.now }
{
    match node {
        Node::ARouter(router) => match router_lsa(at, *router) {
            None => 0,
            Some(lsa) => lookups_in(at, lsa, most),
        },
        Node::ANetwork(id, by) => match network_lsa(at, *id, *by) {
            None => 0,
            Some(lsa) => lsa.attached.as_slice().len(),
        },
    }
}

/// Whether rebuilding the graph is cheaper than recalculating the vertices at these indices.
pub fn are_costly(at: &Surroundings<'_>, places: &[usize]) -> bool
    requires { Ascend at.now.nodes.now }
{
    let most = at.nodes.len().saturating_add(SPARE);
    let mut lookups = 0usize;
    for place in places {
        if let Some(node) = at.nodes.get(*place) {
            lookups = lookups
                .saturating_add(1)
                .saturating_add(lookups_of(at, node, most));
        }
        if lookups > most {
            return true;
        }
    }
    false
}
