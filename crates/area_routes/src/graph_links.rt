//! The links of the graph from one node, as in `candidates::links`, but each looked up for itself
//! in the database, and not in a sorted list of all that is advertised.
ghost use Rattle.std.specs.Prelude.{◌≡◌, ◌<◌, ◌≤◌, ◌↔◌, ℕ, length, IfOk, IsTrue, OnOk};
ghost use Rattle.std.specs.Prelude.{MatchOption};
ghost use Rattle.std.specs.List.{All, Contains};
ghost use Rattle.candidates.specs.Entries.{IsListedAt};
ghost use Rattle.candidates.specs.Graphs.{Adds, AreLinksFrom, CostFits, IsVertexOf, OfEach};
ghost use Rattle.candidates.specs.Graphs.{StandsAt};
ghost use Rattle.candidates.specs.Nodes.{AreNodes};
ghost use Rattle.area_routes.specs.GraphLinks.{IsAttached, IsNeighbor, IsToEnd, IsToNeighbor};
ghost use Rattle.area_routes.specs.GraphLinks.{IsToNetwork, IsToNetworkAt};
ghost use Rattle.routes.specs.Links.{ListsRouter};
ghost use Rattle.routes.specs.Contents.{contents_at};
ghost use Rattle.routes.specs.declared.node.Node.TheVariants.{ANetwork};

use crate::surroundings::{Surroundings, has_link_to, index_range_of, network_lsa, router_lsa};
use candidates::{add_exits, find, kind_of};
use lsa::{LinkKind, NetworkLsa, RouterLink, RouterLsa};
use routes::{Node, Root, Vertex, VertexLink};
use std::alloc::{AllocError, Global};
use words::{LinkStateId, RouterId};

// The index of a router, if its LSA has a link of this kind to this Link ID.
fn index_if_linking_back(
    at: &Surroundings<'_>,
    far: RouterId,
    kind: LinkKind,
    id: u32,
) -> Option<usize>
    requires { AreNodes (contents_at at.now.moment at.now.db.now.present) at.now.nodes.now }
    ensures { IsNeighbor (contents_at at.now.moment at.now.db.now.present) at.now.nodes.now far
        kind id
        result }
{
    match router_lsa(at, far) {
        None => None,
        Some(lsa) => {
            if has_link_to(lsa, kind, id) {
                find(at.nodes, at.slots, &Node::ARouter(far))
            } else {
                None
            }
        }
    }
}

// Adds the links to the router at the far end of a point-to-point link, if that has a link back.
fn add_neighbor(
    at: &Surroundings<'_>,
    root: &Root,
    router: RouterId,
    advertised: &RouterLink,
    links: &mut Vec<VertexLink>,
) -> Result<(), AllocError>
    requires nodes { AreNodes (contents_at at.now.moment at.now.db.now.present) at.now.nodes.now }
    requires interfaces { length root.now.addresses ≤ 63 }
    requires is_kind { advertised.now.kind ≡ LinkKind.PointToPoint }
    requires counts { 0 < advertised.now.metric }
    ensures adds { OnOk result (Adds (IsToNeighbor
        (contents_at at.now.moment at.now.db.now.present) root.now at.now.nodes.now router
        advertised.now) links.old.items links.new.items) }
    ensures fits { OnOk result (All CostFits links.old.items → All CostFits links.new.items) }
{
    let far = RouterId::new(advertised.link_id);
    match index_if_linking_back(at, far, LinkKind::PointToPoint, router.number()) {
        None => Ok(()),
        Some(to) => add_exits(
            root,
            router,
            advertised.link_data,
            advertised.metric,
            to,
            links,
        ),
    }
}

fn is_same(a: RouterId, b: RouterId) -> bool
    ensures { IsTrue result ↔ (a ≡ b) }
{
    a.number() == b.number()
}

// Whether the LSA lists the router.
fn is_listed(lsa: &NetworkLsa, router: RouterId) -> bool
    ensures { IsTrue result ↔ Contains lsa.now.attached router }
{
    for other in lsa.attached.as_slice() {
        if is_same(*other, router) {
            return true;
        }
    }
    false
}

// Whether the network's LSA lists the router.
fn lists(at: &Surroundings<'_>, id: LinkStateId, by: RouterId, router: RouterId) -> bool
    ensures { IsTrue result ↔ ListsRouter (contents_at at.now.moment at.now.db.now.present) id by
        router }
{
    match network_lsa(at, id, by) {
        None => false,
        Some(lsa) => is_listed(lsa, router),
    }
}

// The router that advertises the network at this index, if that is one whose LSA has this Link
// State ID.
fn advertiser_at(at: &Surroundings<'_>, place: usize, id: LinkStateId) -> Option<RouterId>
    ensures { MatchOption result
        ((by : ℕ) → StandsAt at.now.nodes.now (ANetwork id by) place → ⊥)
        (λ by. StandsAt at.now.nodes.now (ANetwork id by) place) }
{
    match at.nodes.get(place)? {
        Node::ARouter(_) => None,
        Node::ANetwork(its, by) => {
            if its.number() == id.number() {
                Some(*by)
            } else {
                None
            }
        }
    }
}

// Whether the node at this index is a network whose LSA has this Link State ID and lists the
// router.
fn lists_at(at: &Surroundings<'_>, place: usize, id: LinkStateId, router: RouterId) -> bool
    ensures { IsTrue result ↔ IsListedAt (contents_at at.now.moment at.now.db.now.present)
        at.now.nodes.now router id place }
{
    match advertiser_at(at, place, id) {
        None => false,
        Some(by) => lists(at, id, by, router),
    }
}

// Adds the links to the network at this index, if its LSA has the Link ID of a transit link as its
// Link State ID, and lists the router.
fn add_network(
    at: &Surroundings<'_>,
    root: &Root,
    router: RouterId,
    advertised: &RouterLink,
    place: usize,
    links: &mut Vec<VertexLink>,
) -> Result<(), AllocError>
    requires nodes { AreNodes (contents_at at.now.moment at.now.db.now.present) at.now.nodes.now }
    requires interfaces { length root.now.addresses ≤ 63 }
    requires is_kind { advertised.now.kind ≡ LinkKind.Transit }
    requires counts { 0 < advertised.now.metric }
    ensures adds { OnOk result (Adds (IsToNetworkAt
        (contents_at at.now.moment at.now.db.now.present) root.now at.now.nodes.now router
        advertised.now place) links.old.items links.new.items) }
    ensures fits { OnOk result (All CostFits links.old.items → All CostFits links.new.items) }
{
    if !lists_at(at, place, LinkStateId::new(advertised.link_id), router) {
        return Ok(());
    }
    add_exits(
        root,
        router,
        advertised.link_data,
        advertised.metric,
        place,
        links,
    )
}

// Adds the links to the networks that have the Link ID of a transit link and list the router.
fn add_networks(
    at: &Surroundings<'_>,
    root: &Root,
    router: RouterId,
    advertised: &RouterLink,
    links: &mut Vec<VertexLink>,
) -> Result<(), AllocError>
    requires nodes { AreNodes (contents_at at.now.moment at.now.db.now.present) at.now.nodes.now }
    requires interfaces { length root.now.addresses ≤ 63 }
    requires is_kind { advertised.now.kind ≡ LinkKind.Transit }
    requires counts { 0 < advertised.now.metric }
    ensures adds { OnOk result (Adds (IsToNetwork
        (contents_at at.now.moment at.now.db.now.present) root.now at.now.nodes.now router
        advertised.now) links.old.items links.new.items) }
    ensures fits { OnOk result (All CostFits links.old.items → All CostFits links.new.items) }
{
    let (first, end) = index_range_of(at, LinkStateId::new(advertised.link_id));
    for place in first..end {
        add_network(at, root, router, advertised, place, links)?;
    }
    Ok(())
}

// A link of metric 0 doesn't count, unlike in RFC 2328, section 16.1: the calculation needs costs
// above 0 (`routes::is_graph`).
fn counts(advertised: &RouterLink) -> bool
    ensures { IsTrue result ↔ (0 < advertised.now.metric) }
{
    advertised.metric > 0
}

// Adds the links of the graph that one link of the router's LSA stands for.
fn add_ends(
    at: &Surroundings<'_>,
    root: &Root,
    router: RouterId,
    advertised: &RouterLink,
    links: &mut Vec<VertexLink>,
) -> Result<(), AllocError>
    requires nodes { AreNodes (contents_at at.now.moment at.now.db.now.present) at.now.nodes.now }
    requires interfaces { length root.now.addresses ≤ 63 }
    ensures adds { OnOk result (Adds (IsToEnd
        (contents_at at.now.moment at.now.db.now.present) root.now at.now.nodes.now router
        advertised.now) links.old.items links.new.items) }
    ensures fits { OnOk result (All CostFits links.old.items → All CostFits links.new.items) }
{
    if !counts(advertised) {
        return Ok(());
    }
    match advertised.kind {
        LinkKind::PointToPoint => add_neighbor(at, root, router, advertised, links),
        LinkKind::Transit => add_networks(at, root, router, advertised, links),
        LinkKind::Stub => Ok(()),
        LinkKind::Virtual => Ok(()),
    }
}

// Adds the links of a router with this LSA.
fn add_all(
    at: &Surroundings<'_>,
    root: &Root,
    router: RouterId,
    lsa: &RouterLsa,
    links: &mut Vec<VertexLink>,
) -> Result<(), AllocError>
    requires nodes { AreNodes (contents_at at.now.moment at.now.db.now.present) at.now.nodes.now }
    requires interfaces { length root.now.addresses ≤ 63 }
    ensures adds { OnOk result (Adds (OfEach (IsToEnd
        (contents_at at.now.moment at.now.db.now.present) root.now at.now.nodes.now router)
        lsa.now.links) links.old.items links.new.items) }
    ensures fits { OnOk result (All CostFits links.old.items → All CostFits links.new.items) }
{
    for advertised in lsa.links.as_slice() {
        add_ends(at, root, router, advertised, links)?;
    }
    Ok(())
}

// Adds the links of a network with this Link State ID to the routers that its LSA lists and that
// have a link back.
fn add_attached(
    at: &Surroundings<'_>,
    id: LinkStateId,
    lsa: &NetworkLsa,
    links: &mut Vec<VertexLink>,
) -> Result<(), AllocError>
    requires { AreNodes (contents_at at.now.moment at.now.db.now.present) at.now.nodes.now }
    ensures adds { OnOk result (Adds (OfEach (IsAttached
        (contents_at at.now.moment at.now.db.now.present) at.now.nodes.now id) lsa.now.attached)
        links.old.items links.new.items) }
    ensures fits { OnOk result (All CostFits links.old.items → All CostFits links.new.items) }
{
    for router in lsa.attached.as_slice() {
        if let Some(to) = index_if_linking_back(at, *router, LinkKind::Transit, id.number()) {
            links.push(VertexLink {
                to,
                cost: 0,
                interface: 0,
            })?;
        }
    }
    Ok(())
}

// The links of the graph from a node.
fn links_of(
    alloc: Global,
    at: &Surroundings<'_>,
    root: &Root,
    node: &Node,
) -> Result<Vec<VertexLink>, AllocError>
    requires nodes { AreNodes (contents_at at.now.moment at.now.db.now.present) at.now.nodes.now }
    requires interfaces { length root.now.addresses ≤ 63 }
    ensures links { IfOk result (λ links. AreLinksFrom
        (contents_at at.now.moment at.now.db.now.present) root.now at.now.nodes.now node.now
        links.items) }
    ensures fits { IfOk result (λ links. All CostFits links.items) }
{
    let mut links = Vec::new(alloc);
    match node {
        Node::ARouter(router) => {
            if let Some(lsa) = router_lsa(at, *router) {
                add_all(at, root, *router, lsa, &mut links)?;
            }
        }
        Node::ANetwork(id, by) => {
            if let Some(lsa) = network_lsa(at, *id, *by) {
                add_attached(at, *id, lsa, &mut links)?;
            }
        }
    }
    Ok(links)
}

/// The vertex of a node. It takes the time of two lookups for each of its links, and for a
/// router's transit link of a look at each network-LSA with its Link ID.
///
/// # Errors
/// `AllocError` if an allocation is refused.
pub fn vertex_of(
    alloc: Global,
    at: &Surroundings<'_>,
    root: &Root,
    node: &Node,
) -> Result<Vertex, AllocError>
    requires nodes { AreNodes (contents_at at.now.moment at.now.db.now.present) at.now.nodes.now }
    requires interfaces { length root.now.addresses ≤ 63 }
    ensures { IfOk result (λ vertex. IsVertexOf (contents_at at.now.moment at.now.db.now.present)
        root.now at.now.nodes.now node.now vertex) }
{
    let kind = kind_of(node);
    let links = links_of(alloc, at, root, node)?;
    Ok(Vertex { kind, links })
}
