//! The links of the graph from a node.
ghost use Rattle.std.specs.Prelude.{◌≡◌, ◌<◌, ◌≤◌, ◌↔◌, length, IfOk, IsTrue, OnOk};
ghost use Rattle.std.specs.List.{All};
ghost use Rattle.std.specs.List.Sorted.{IsSorted};
ghost use Rattle.routes.specs.Contents.{contents_at};
ghost use Rattle.candidates.specs.Entries.{AreOrdered, IsArea, entry_cmp, rank};
ghost use Rattle.candidates.specs.Graphs.{Adds, AreLinksFrom, CostFits, OfEach};
ghost use Rattle.candidates.specs.Links.{IsCheapest, IsExitTo, IsNeighborAt, IsOwnTo, IsOwnTransit};
ghost use Rattle.candidates.specs.Links.{IsToListed, IsToNetwork, IsToRouter, IsToSomeNetwork};

use crate::advertised::{Advertised, network_lsa, router_lsa};
use crate::entry::{AdvertisedLink, EntryKind, of_list};
use crate::lookups::{first_at_near, has_entry_near, least_metric};
use crate::slots::Slots;
use crate::starts::{Start, start_at};
use lsa::{LinkKind, NetworkLsa, RouterLink, RouterLsa};
use routes::{Node, Root, VertexLink};
use std::alloc::{AllocError, Global};
use words::{LinkStateId, RouterId};

/// The nodes of an area with their slots, what LSAs advertise about its routers, and where that
/// begins for each of these.
#[derive(Drop)]
pub struct AreaTopology<'a> {
    pub nodes: &'a [Node],
    pub entries: &'a [AdvertisedLink],
    pub slots: &'a Slots,
    pub starts: &'a [Start],
}

/// The links of the graph from a node, to the indices of their nodes. Of a router's links to one
/// network only a cheapest one is included, but of the root's one for each interface.
///
/// # Errors
/// `AllocError` if an allocation is refused.
pub fn links_from(
    alloc: Global,
    advertised: &Advertised<'_>,
    root: &Root,
    area: &AreaTopology<'_>,
    from: &Node,
    place: usize,
) -> Result<Vec<VertexLink>, AllocError>
    requires area { IsArea (contents_at advertised.now.moment advertised.now.db.now.present)
        advertised.now.bodies.now area.now.nodes.now area.now.entries.now }
    requires interfaces { length root.now.addresses ≤ 63 }
    ensures links { IfOk result (λ links. AreLinksFrom
        (contents_at advertised.now.moment advertised.now.db.now.present) root.now
        area.now.nodes.now
        from.now links.items) }
    ensures fits { IfOk result (λ links. All CostFits links.items) }
{
    let mut links = Vec::new(alloc);
    match from {
        Node::ARouter(router) => {
            if let Some(lsa) = router_lsa(advertised, place, *router) {
                add_routers(root, area, *router, lsa, &mut links)?;
                add_networks(
                    root,
                    area.entries,
                    start_at(area.starts, place).lists,
                    *router,
                    lsa,
                    &mut links,
                )?;
            }
        }
        Node::ANetwork(id, by) => {
            if let Some(lsa) = network_lsa(advertised, place, *id, *by) {
                add_listed(area, *id, lsa, &mut links)?;
            }
        }
    }
    Ok(links)
}

// ---- to routers

// Adds the links to the routers at the far ends of point-to-point links.
fn add_routers(
    root: &Root,
    area: &AreaTopology<'_>,
    router: RouterId,
    lsa: &RouterLsa,
    links: &mut Vec<VertexLink>,
) -> Result<(), AllocError>
    requires ordered { AreOrdered area.now.nodes.now area.now.entries.now }
    requires interfaces { length root.now.addresses ≤ 63 }
    ensures adds { OnOk result
        (Adds (OfEach (IsToRouter root.now area.now.nodes.now area.now.entries.now router)
        lsa.now.links) links.old.items links.new.items) }
    ensures fits { OnOk result (All CostFits links.old.items → All CostFits links.new.items) }
{
    for advertised in lsa.links.as_slice() {
        if is_to_router(advertised) {
            add_router(root, area, router, advertised, links)?;
        }
    }
    Ok(())
}

// Whether it is a point-to-point link of a metric above 0. Others don't count, unlike in RFC 2328,
// section 16.1: the calculation needs costs above 0 (`routes::is_graph`).
fn is_to_router(advertised: &RouterLink) -> bool
    ensures { IsTrue result ↔ ((advertised.now.kind ≡ LinkKind.PointToPoint)
        × (0 < advertised.now.metric)) }
{
    advertised.kind == LinkKind::PointToPoint && advertised.metric > 0
}

// Adds the links to the router at the far end of one, if that has a link back.
fn add_router(
    root: &Root,
    area: &AreaTopology<'_>,
    router: RouterId,
    advertised: &RouterLink,
    links: &mut Vec<VertexLink>,
) -> Result<(), AllocError>
    requires ordered { AreOrdered area.now.nodes.now area.now.entries.now }
    requires interfaces { length root.now.addresses ≤ 63 }
    requires is_kind { advertised.now.kind ≡ LinkKind.PointToPoint }
    requires counts { 0 < advertised.now.metric }
    ensures adds { OnOk result (Adds (IsToRouter root.now area.now.nodes.now area.now.entries.now
        router advertised.now)
        links.old.items links.new.items) }
    ensures fits { OnOk result (All CostFits links.old.items → All CostFits links.new.items) }
{
    let far = RouterId::new(advertised.link_id);
    match index_if_linking_back(area, far, EntryKind::PointToPoint, router.number()) {
        None => Ok(()),
        Some(to) => add_exits(
            root,
            router,
            advertised.link_data,
            advertised.metric,
            to,
            links,
        ),
    }
}

// The index of a router, if its LSA has a link of this kind to this ID.
fn index_if_linking_back(
    area: &AreaTopology<'_>,
    router: RouterId,
    kind: EntryKind,
    id: u32,
) -> Option<usize>
    requires ordered { AreOrdered area.now.nodes.now area.now.entries.now }
    requires of_link { rank kind < 2 }
    ensures { IsNeighborAt area.now.nodes.now area.now.entries.now router kind id result }
{
    let place = area.slots.index_of(area.nodes, &Node::ARouter(router));
    let start = start_at(area.starts, place).links;
    if has_entry_near(area.entries, start, router, kind, id) {
        Some(place)
    } else {
        None
    }
}

/// Adds the links of a router to one node: for the root one for each own interface with this
/// address.
///
/// # Errors
/// `AllocError` if an allocation is refused.
pub fn add_exits(
    root: &Root,
    router: RouterId,
    address: u32,
    cost: u16,
    to: usize,
    links: &mut Vec<VertexLink>,
) -> Result<(), AllocError>
    requires { length root.now.addresses ≤ 63 }
    ensures adds { OnOk result (Adds (IsExitTo root.now router to cost address) links.old.items
        links.new.items) }
    ensures fits { OnOk result (All CostFits links.old.items → All CostFits links.new.items) }
{
    if is_root(root, router) {
        return add_own(root, address, cost, to, links);
    }
    links.push(VertexLink {
        to,
        cost,
        interface: 0,
    })?;
    Ok(())
}

fn is_root(root: &Root, router: RouterId) -> bool
    ensures { IsTrue result ↔ (router ≡ root.now.router) }
{
    router.number() == root.router.number()
}

// Adds a link for each own interface with this address.
fn add_own(
    root: &Root,
    address: u32,
    cost: u16,
    to: usize,
    links: &mut Vec<VertexLink>,
) -> Result<(), AllocError>
    requires { length root.now.addresses ≤ 63 }
    ensures adds { OnOk result (Adds (IsOwnTo root.now to cost address) links.old.items
        links.new.items) }
    ensures fits { OnOk result (All CostFits links.old.items → All CostFits links.new.items) }
{
    let addresses = root.addresses.as_slice();
    for n in 0..addresses.len() {
        if addresses[n].bits() == address {
            links.push(VertexLink {
                to,
                cost,
                interface: n as u8 + 1,
            })?;
        }
    }
    Ok(())
}

// ---- to networks

// Adds the links to the networks that list the router. The entries of their lists are expected at
// index `start`.
fn add_networks(
    root: &Root,
    entries: &[AdvertisedLink],
    start: usize,
    router: RouterId,
    lsa: &RouterLsa,
    links: &mut Vec<VertexLink>,
) -> Result<(), AllocError>
    requires sorted { IsSorted entry_cmp entries.now }
    requires interfaces { length root.now.addresses ≤ 63 }
    ensures adds { OnOk result (Adds (IsToSomeNetwork root.now entries.now router lsa.now.links)
        links.old.items links.new.items) }
    ensures fits { OnOk result (All CostFits links.old.items → All CostFits links.new.items) }
{
    let least = of_list(LinkStateId::new(0), 0, router);
    let first = first_at_near(entries, start, &least);
    for at in first..entries.len() {
        let entry = &entries[at];
        if !is_listed(entry, router) {
            return Ok(());
        }
        add_network(root, entries, router, lsa, entry, links)?;
    }
    Ok(())
}

fn is_listed(entry: &AdvertisedLink, router: RouterId) -> bool
    ensures { IsTrue result ↔ ((entry.now.router ≡ router)
        × (entry.now.kind ≡ EntryKind.Attached)) }
{
    entry.router.number() == router.number() && entry.kind == EntryKind::Attached
}

// Adds the links to the network whose list the entry is from.
fn add_network(
    root: &Root,
    entries: &[AdvertisedLink],
    router: RouterId,
    lsa: &RouterLsa,
    entry: &AdvertisedLink,
    links: &mut Vec<VertexLink>,
) -> Result<(), AllocError>
    requires sorted { IsSorted entry_cmp entries.now }
    requires interfaces { length root.now.addresses ≤ 63 }
    ensures adds { OnOk result (Adds (IsToNetwork root.now entries.now router lsa.now.links
        entry.now) links.old.items links.new.items) }
    ensures fits { OnOk result (All CostFits links.old.items → All CostFits links.new.items) }
{
    if is_root(root, router) {
        return add_own_transits(root, lsa, entry.id, entry.place, links);
    }
    add_cheapest(entries, router, entry, links)
}

// Adds the root's links to one network: for each of its transit links, one for each own interface
// of that link.
fn add_own_transits(
    root: &Root,
    lsa: &RouterLsa,
    id: u32,
    to: usize,
    links: &mut Vec<VertexLink>,
) -> Result<(), AllocError>
    requires { length root.now.addresses ≤ 63 }
    ensures adds { OnOk result (Adds (OfEach (IsOwnTransit root.now id to) lsa.now.links)
        links.old.items links.new.items) }
    ensures fits { OnOk result (All CostFits links.old.items → All CostFits links.new.items) }
{
    for advertised in lsa.links.as_slice() {
        if is_transit_to(advertised, id) {
            add_own(root, advertised.link_data, advertised.metric, to, links)?;
        }
    }
    Ok(())
}

// Whether it is a transit link to this ID, of a metric above 0.
fn is_transit_to(advertised: &RouterLink, id: u32) -> bool
    ensures { IsTrue result ↔ ((advertised.now.kind ≡ LinkKind.Transit)
        × (advertised.now.link_id ≡ id) × (0 < advertised.now.metric)) }
{
    advertised.kind == LinkKind::Transit && advertised.link_id == id && advertised.metric > 0
}

// Adds one link to a network: of several transit links to its Link State ID only the cheapest can
// be on a least-cost walk.
fn add_cheapest(
    entries: &[AdvertisedLink],
    router: RouterId,
    entry: &AdvertisedLink,
    links: &mut Vec<VertexLink>,
) -> Result<(), AllocError>
    requires { IsSorted entry_cmp entries.now }
    ensures adds { OnOk result (Adds (IsCheapest entries.now router entry.now) links.old.items
        links.new.items) }
    ensures fits { OnOk result (All CostFits links.old.items → All CostFits links.new.items) }
{
    if let Some(cost) = least_metric(entries, router, EntryKind::Transit, entry.id, 1) {
        links.push(VertexLink {
            to: entry.place,
            cost,
            interface: 0,
        })?;
    }
    Ok(())
}

// ---- from networks

// Adds the links of the network with this Link State ID to the routers that its LSA lists and that
// have a link back.
fn add_listed(
    area: &AreaTopology<'_>,
    id: LinkStateId,
    lsa: &NetworkLsa,
    links: &mut Vec<VertexLink>,
) -> Result<(), AllocError>
    requires { AreOrdered area.now.nodes.now area.now.entries.now }
    ensures adds { OnOk result (Adds (OfEach (IsToListed area.now.nodes.now area.now.entries.now id)
        lsa.now.attached)
        links.old.items links.new.items) }
    ensures fits { OnOk result (All CostFits links.old.items → All CostFits links.new.items) }
{
    for router in lsa.attached.as_slice() {
        if let Some(to) = index_if_linking_back(area, *router, EntryKind::Transit, id.number()) {
            links.push(VertexLink {
                to,
                cost: 0,
                interface: 0,
            })?;
        }
    }
    Ok(())
}
