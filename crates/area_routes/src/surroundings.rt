//! A database at a moment with the nodes of its graph, and what its LSAs say of their links.
ghost use Rattle.std.specs.Prelude.{◌≡◌, ◌<◌, ◌≤◌, ◌↔◌, ℕ, length, IsTrue, option_copied};
ghost use Rattle.candidates.specs.Graphs.{StandsAt};
ghost use Rattle.candidates.specs.Nodes.{Ascend, network_lsa, router_lsa};
ghost use Rattle.area_routes.specs.GraphLinks.{HasLinkTo, IsOfId};
ghost use Rattle.routes.specs.Contents.{contents_at};
ghost use Rattle.routes.specs.declared.node.Node.TheVariants.{ANetwork};

use candidates::Slots;
use lsa::{LinkKind, LsaBody, NetworkLsa, RouterLink, RouterLsa};
use routes::{Lsdb, Node};
use words::{Key, LinkStateId, RouterId, Second, router_key};

/// A database at a moment, and its nodes.
#[derive(Drop)]
pub struct Surroundings<'a> {
    pub db: &'a Lsdb,
    pub moment: Second,
    pub nodes: &'a [Node],
    pub slots: &'a Slots,
}

/// The router-LSA of a router, unless it is at MaxAge.
pub fn router_lsa<'a>(at: &Surroundings<'a>, router: RouterId) -> Option<&'a RouterLsa>
    ensures { option_copied result ≡ router_lsa (contents_at at.now.moment at.now.db.now.present)
        router }
{
    let key = router_key(router);
    match at.db.body_at(at.moment, &key) {
        Some(LsaBody::Router(lsa)) => Some(lsa),
        _ => None,
    }
}

/// The network-LSA with this Link State ID and Advertising Router, unless it is at MaxAge.
pub fn network_lsa<'a>(
    at: &Surroundings<'a>,
    id: LinkStateId,
    by: RouterId,
) -> Option<&'a NetworkLsa>
    ensures { option_copied result ≡ network_lsa (contents_at at.now.moment at.now.db.now.present)
        id by }
{
    let key = Key {
        ls_type: 2,
        link_state_id: id,
        advertising_router: by,
    };
    match at.db.body_at(at.moment, &key) {
        Some(LsaBody::Network(lsa)) => Some(lsa),
        _ => None,
    }
}

fn is_to(link: &RouterLink, kind: LinkKind, id: u32) -> bool
    ensures { IsTrue result ↔ ((link.now.kind ≡ kind) × (link.now.link_id ≡ id)) }
{
    link.kind == kind && link.link_id == id
}

/// Whether the LSA has a link of this kind to this Link ID.
pub fn has_link_to(lsa: &RouterLsa, kind: LinkKind, id: u32) -> bool
    ensures { IsTrue result ↔ HasLinkTo lsa.now kind id }
{
    for link in lsa.links.as_slice() {
        if is_to(link, kind, id) {
            return true;
        }
    }
    false
}

// Whether it is a network whose LSA has this Link State ID.
fn is_of_id(node: &Node, id: LinkStateId) -> bool
    ensures { IsTrue result ↔ IsOfId id node.now }
{
    match node {
        Node::ARouter(_) => false,
        Node::ANetwork(its, _) => its.number() == id.number(),
    }
}

/// Where the networks whose LSAs have this Link State ID stand among the nodes: from the first
/// index up to the second. There is one for each router that advertises it.
pub fn index_range_of(at: &Surroundings<'_>, id: LinkStateId) -> (usize, usize)
    requires { Ascend at.now.nodes.now }
    ensures within { result.1 ≤ length at.now.nodes.now }
    ensures first { (by place : ℕ) → StandsAt at.now.nodes.now (ANetwork id by) place
        → result.0 ≤ place }
    ensures end { (by place : ℕ) → StandsAt at.now.nodes.now (ANetwork id by) place
        → place < result.1 }
{
    let first = at
        .slots
        .index_of(at.nodes, &Node::ANetwork(id, RouterId::new(0)));
    for end in first..at.nodes.len() {
        if !is_of_id(&at.nodes[end], id) {
            return (first, end);
        }
    }
    (first, at.nodes.len())
}
