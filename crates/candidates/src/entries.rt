//! All that LSAs advertise about routers, sorted. It is built once for a graph, so that no list of
//! links or routers is scanned for each link or network.
ghost use Rattle.std.specs.Prelude.{◌≡◌, ◌↔◌, ℕ, IfOk, OnOk, Some};
ghost use Rattle.std.specs.List.{Contains};
ghost use Rattle.std.specs.List.Sorted.{IsSorted};
ghost use Rattle.lsa.specs.declared.body.RouterLink.{RouterLink as LinkValue};
ghost use Rattle.lsdb.specs.Bodies.{AreBodies};
ghost use Rattle.routes.specs.Contents.{contents_at};
ghost use Rattle.candidates.specs.Entries.{AreEntries, TellsOf, attached_entry, entry_cmp};
ghost use Rattle.candidates.specs.Entries.{entry_of};
ghost use Rattle.candidates.specs.Graphs.{Adds, OfEach};
ghost use Rattle.candidates.specs.Nodes.{AreNodes};
ghost use Rattle.candidates.specs.declared.entry.AdvertisedLink.{AdvertisedLink as EntryValue};

use crate::advertised::{Advertised, network_lsa, router_lsa};
use crate::entry::{AdvertisedLink, compare, of_link, of_list};
use lsa::{NetworkLsa, RouterLsa};
use routes::Node;
use std::alloc::{AllocError, Global};
use words::{LinkStateId, RouterId};

/// What the LSAs of the nodes advertise about each router, sorted: an entry for each point-to-point
/// and transit link of a router-LSA, and for each router that a network-LSA lists.
///
/// # Errors
/// `AllocError` if an allocation is refused.
pub fn entries_of(
    alloc: Global,
    advertised: &Advertised<'_>,
    nodes: &[Node],
) -> Result<Vec<AdvertisedLink>, AllocError>
    requires bodies { AreBodies (Some 2)
        (contents_at advertised.now.moment advertised.now.db.now.present)
        advertised.now.bodies.now }
    requires nodes { AreNodes (contents_at advertised.now.moment advertised.now.db.now.present)
        nodes.now }
    ensures { IfOk result (λ entries. AreEntries
        (contents_at advertised.now.moment advertised.now.db.now.present) nodes.now entries.items) }
{
    let mut own = Vec::new(alloc);
    let mut entries = Vec::new(alloc);
    for at in 0..nodes.len() {
        add_in_order(advertised, &nodes[at], at, &mut own, &mut entries)?;
    }
    sort(&mut entries)?;
    Ok(entries)
}

// Appends the sorted entries of the LSA of the node at this index, so that the whole is sorted
// except for the lists of networks. `own` is scratch space.
fn add_in_order(
    advertised: &Advertised<'_>,
    node: &Node,
    place: usize,
    own: &mut Vec<AdvertisedLink>,
    entries: &mut Vec<AdvertisedLink>,
) -> Result<(), AllocError>
    requires { AreBodies (Some 2)
        (contents_at advertised.now.moment advertised.now.db.now.present)
        advertised.now.bodies.now }
    ensures { OnOk result (Adds (TellsOf (contents_at advertised.now.moment
        advertised.now.db.now.present) node.now place) entries.old.items entries.new.items) }
{
    own.clear();
    add_node(advertised, node, place, own)?;
    sort_own(own);
    push_all(own, entries)?;
    Ok(())
}

// Adds the entries of the LSA of the node at this index.
fn add_node(
    advertised: &Advertised<'_>,
    node: &Node,
    place: usize,
    entries: &mut Vec<AdvertisedLink>,
) -> Result<(), AllocError>
    requires { AreBodies (Some 2)
        (contents_at advertised.now.moment advertised.now.db.now.present)
        advertised.now.bodies.now }
    ensures { OnOk result (Adds (TellsOf (contents_at advertised.now.moment
        advertised.now.db.now.present) node.now place) entries.old.items entries.new.items) }
{
    match node {
        Node::ARouter(router) => match router_lsa(advertised, place, *router) {
            None => Ok(()),
            Some(lsa) => add_links(*router, lsa, entries),
        },
        Node::ANetwork(id, by) => match network_lsa(advertised, place, *id, *by) {
            None => Ok(()),
            Some(lsa) => add_list(*id, place, lsa, entries),
        },
    }
}

// Adds an entry for each link that has one.
fn add_links(
    router: RouterId,
    lsa: &RouterLsa,
    entries: &mut Vec<AdvertisedLink>,
) -> Result<(), AllocError>
    ensures { OnOk result (Adds (OfEach (λ (link : LinkValue) (entry : EntryValue).
        entry_of router link ≡ Some entry) lsa.now.links) entries.old.items entries.new.items) }
{
    for link in lsa.links.as_slice() {
        if let Some(entry) = of_link(router, link) {
            entries.push(entry)?;
        }
    }
    Ok(())
}

// Adds an entry for each router that the LSA lists.
fn add_list(
    id: LinkStateId,
    place: usize,
    lsa: &NetworkLsa,
    entries: &mut Vec<AdvertisedLink>,
) -> Result<(), AllocError>
    ensures { OnOk result (Adds (OfEach (λ (router : ℕ) (entry : EntryValue). entry
        ≡ attached_entry id place router) lsa.now.attached) entries.old.items entries.new.items) }
{
    for router in lsa.attached.as_slice() {
        entries.push(of_list(id, place, *router))?;
    }
    Ok(())
}

// Adds all of them.
fn push_all(own: &[AdvertisedLink], entries: &mut Vec<AdvertisedLink>) -> Result<(), AllocError>
    ensures { OnOk result (Adds (λ (entry : EntryValue). Contains own.now entry)
        entries.old.items entries.new.items) }
{
    for entry in own {
        entries.push(*entry)?;
    }
    Ok(())
}

fn sort_own(own: &mut Vec<AdvertisedLink>)
    ensures { (entry : EntryValue) → Contains own.new.items entry ↔ Contains own.old.items entry }
{
    own.sort_unstable_by(|a, b| compare(a, b));
}

// Merges the runs that are sorted.
fn sort(entries: &mut Vec<AdvertisedLink>) -> Result<(), AllocError>
    ensures sorted { OnOk result (IsSorted entry_cmp entries.new.items) }
    ensures same { OnOk result ((entry : EntryValue) → Contains entries.new.items entry
        ↔ Contains entries.old.items entry) }
{
    entries.sort_by(|a, b| compare(a, b))?;
    Ok(())
}
