//! Which nodes' links may have changed.
ghost use Rattle.std.specs.Prelude.{◌≡◌, ℕ, IfOk, IfSome, IsTrue, MatchOption, OnOk, Some};
ghost use Rattle.std.specs.Prelude.{option_copied};
ghost use Rattle.std.specs.List.{Contains};
ghost use Rattle.candidates.specs.Nodes.{Ascend};
ghost use Rattle.area_routes.specs.GraphChanges.{AreCovered, AreEndsAmong, AreListedAmong};
ghost use Rattle.area_routes.specs.GraphChanges.{AreNetworksAmong, IsAmong, IsCovered, IsEndAmong};
ghost use Rattle.area_routes.specs.GraphChanges.{IsNetworkNoted, IsRouterNoted};
ghost use Rattle.lsa.specs.declared.body.LsaBody.TheVariants as body;
ghost use Rattle.lsa.specs.declared.body.NetworkLsa.{NetworkLsa as NetworkValue};
ghost use Rattle.lsa.specs.declared.body.RouterLsa.{RouterLsa as RouterValue};
ghost use Rattle.routes.specs.Links.{network_key, router_key};
ghost use Rattle.routes.specs.Contents.{contents_at};

use crate::lookups::SPARE;
use crate::surroundings::{Surroundings, index_range_of};
use candidates::{NETWORK_LSA, find};
use lsa::{LinkKind, LsaBody, NetworkLsa, RouterLink, RouterLsa};
use routes::Node;
use std::alloc::{AllocError, Global};
use words::{Key, LinkStateId, RouterId, Second};

// Records the index of a node, if it is one.
fn note_node(at: &Surroundings<'_>, node: &Node, places: &mut Vec<usize>) -> Result<(), AllocError>
    requires { Ascend at.now.nodes.now }
    ensures kept { OnOk result ((place : ℕ) → Contains places.old.items place
        → Contains places.new.items place) }
    ensures noted { OnOk result (IsAmong at.now.nodes.now places.new.items node.now) }
{
    if let Some(place) = find(at.nodes, at.slots, node) {
        places.push(place)?;
    }
    Ok(())
}

// Records the indices of the networks with this Link State ID.
fn note_networks(
    at: &Surroundings<'_>,
    id: LinkStateId,
    places: &mut Vec<usize>,
) -> Result<(), AllocError>
    requires { Ascend at.now.nodes.now }
    ensures kept { OnOk result ((place : ℕ) → Contains places.old.items place
        → Contains places.new.items place) }
    ensures noted { OnOk result (AreNetworksAmong at.now.nodes.now places.new.items id) }
{
    let (first, end) = index_range_of(at, id);
    for place in first..end {
        places.push(place)?;
    }
    Ok(())
}

// Records the indices of the nodes that a link may lead to.
fn note_end(
    at: &Surroundings<'_>,
    link: &RouterLink,
    places: &mut Vec<usize>,
) -> Result<(), AllocError>
    requires { Ascend at.now.nodes.now }
    ensures kept { OnOk result ((place : ℕ) → Contains places.old.items place
        → Contains places.new.items place) }
    ensures noted { OnOk result (IsEndAmong at.now.nodes.now places.new.items link.now) }
{
    match link.kind {
        LinkKind::PointToPoint => {
            note_node(at, &Node::ARouter(RouterId::new(link.link_id)), places)
        }
        LinkKind::Transit => note_networks(at, LinkStateId::new(link.link_id), places),
        LinkKind::Stub => Ok(()),
        LinkKind::Virtual => Ok(()),
    }
}

// Whether these are more than the nodes and some: with many networks of one Link State ID, and many
// links to it, each network would be recorded often.
fn are_many(places: &[usize], nodes: &[Node]) -> bool {
    places.len() > nodes.len().saturating_add(SPARE)
}

// Records the indices of the nodes that the LSA's links may lead to. Returns false if these are
// many.
fn note_ends(
    at: &Surroundings<'_>,
    lsa: &RouterLsa,
    places: &mut Vec<usize>,
) -> Result<bool, AllocError>
    requires { Ascend at.now.nodes.now }
    ensures kept { OnOk result ((place : ℕ) → Contains places.old.items place
        → Contains places.new.items place) }
    ensures noted { IfOk result (λ noted. IsTrue noted
        → AreEndsAmong at.now.nodes.now places.new.items lsa.now) }
{
    for link in lsa.links.as_slice() {
        if are_many(places, at.nodes) {
            return Ok(false);
        }
        note_end(at, link, places)?;
    }
    Ok(true)
}

// Records the indices of the routers that the LSA lists.
fn note_listed(
    at: &Surroundings<'_>,
    lsa: &NetworkLsa,
    places: &mut Vec<usize>,
) -> Result<(), AllocError>
    requires { Ascend at.now.nodes.now }
    ensures kept { OnOk result ((place : ℕ) → Contains places.old.items place
        → Contains places.new.items place) }
    ensures noted { OnOk result (AreListedAmong at.now.nodes.now places.new.items lsa.now) }
{
    for router in lsa.attached.as_slice() {
        note_node(at, &Node::ARouter(*router), places)?;
    }
    Ok(())
}

// The router-LSA in the body, if it is one.
fn router_of(lsa_body: Option<&LsaBody>) -> Option<&RouterLsa>
    ensures { MatchOption result ((lsa : RouterValue)
        → option_copied lsa_body.entry ≡ Some (body.Router lsa) → ⊥) (λ lsa.
        option_copied lsa_body.entry ≡ Some (body.Router lsa.now)) }
{
    match lsa_body? {
        LsaBody::Router(lsa) => Some(lsa),
        _ => None,
    }
}

// The network-LSA in the body, if it is one.
fn network_of(lsa_body: Option<&LsaBody>) -> Option<&NetworkLsa>
    ensures { MatchOption result ((lsa : NetworkValue)
        → option_copied lsa_body.entry ≡ Some (body.Network lsa) → ⊥) (λ lsa.
        option_copied lsa_body.entry ≡ Some (body.Network lsa.now)) }
{
    match lsa_body? {
        LsaBody::Network(lsa) => Some(lsa),
        _ => None,
    }
}

// Records a router, and the nodes that the links of its LSA may have led to or may lead to. Returns
// false if there was or is no such LSA, or if these are many.
fn note_router(
    at: &Surroundings<'_>,
    router: RouterId,
    was: Option<&LsaBody>,
    is: Option<&LsaBody>,
    places: &mut Vec<usize>,
) -> Result<bool, AllocError>
    requires { Ascend at.now.nodes.now }
    ensures kept { OnOk result ((place : ℕ) → Contains places.old.items place
        → Contains places.new.items place) }
    ensures noted { IfOk result (λ noted. IsTrue noted
        → IsRouterNoted (option_copied was.entry) (option_copied is.entry) at.now.nodes.now
        places.new.items router) }
{
    let Some(was) = router_of(was) else {
        return Ok(false);
    };
    let Some(is) = router_of(is) else {
        return Ok(false);
    };
    note_node(at, &Node::ARouter(router), places)?;
    if !note_ends(at, was, places)? {
        return Ok(false);
    }
    if !note_ends(at, is, places)? {
        return Ok(false);
    }
    Ok(true)
}

// Records a network, and the routers that its LSA listed or lists. Returns false if there was or is
// no such LSA.
fn note_network(
    at: &Surroundings<'_>,
    node: &Node,
    was: Option<&LsaBody>,
    is: Option<&LsaBody>,
    places: &mut Vec<usize>,
) -> Result<bool, AllocError>
    requires { Ascend at.now.nodes.now }
    ensures kept { OnOk result ((place : ℕ) → Contains places.old.items place
        → Contains places.new.items place) }
    ensures noted { IfOk result (λ noted. IsTrue noted
        → IsNetworkNoted (option_copied was.entry) (option_copied is.entry) at.now.nodes.now
        places.new.items node.now) }
{
    let Some(was) = network_of(was) else {
        return Ok(false);
    };
    let Some(is) = network_of(is) else {
        return Ok(false);
    };
    note_node(at, node, places)?;
    note_listed(at, was, places)?;
    note_listed(at, is, places)?;
    Ok(true)
}

// Whether it is the key of a router-LSA.
fn is_of_router(key: &Key) -> bool
    ensures { IsTrue result → key.now ≡ router_key key.now.advertising_router }
{
    key.ls_type == 1 && key.link_state_id.number() == key.advertising_router.number()
}

// Whether it is the key of a network-LSA.
fn is_of_network(key: &Key) -> bool
    ensures { IsTrue result
        → key.now ≡ network_key key.now.link_state_id key.now.advertising_router }
{
    key.ls_type == NETWORK_LSA
}

// Records the nodes whose links this LSA's change may affect. Returns false if these are unknown or
// many: if the LSA was added or removed, or makes no node.
fn note_key(
    at: &Surroundings<'_>,
    before: Second,
    key: &Key,
    places: &mut Vec<usize>,
) -> Result<bool, AllocError>
    requires { Ascend at.now.nodes.now }
    ensures kept { OnOk result ((place : ℕ) → Contains places.old.items place
        → Contains places.new.items place) }
    ensures covered { IfOk result (λ covered. IsTrue covered → IsCovered
        (contents_at before at.now.db.now.committed)
        (contents_at at.now.moment at.now.db.now.present)
        at.now.nodes.now places.new.items key.now) }
{
    let was = at.db.committed_body_at(before, key);
    let is = at.db.body_at(at.moment, key);
    if was.is_none() && is.is_none() {
        return Ok(true);
    }
    let by = key.advertising_router;
    if is_of_router(key) {
        return note_router(at, by, was, is, places);
    }
    if is_of_network(key) {
        let node = Node::ANetwork(key.link_state_id, by);
        return note_network(at, &node, was, is, places);
    }
    Ok(false)
}

/// The indices of the nodes whose links may have changed since the moment `before`, if only the
/// LSAs with these keys may have changed: those of the LSAs themselves, and of the routers and
/// networks that they named or name. `None` if these are unknown, since a router or network was
/// added or removed, or if they are many.
///
/// # Errors
/// `AllocError` if an allocation is refused.
pub fn indices_to_renew(
    alloc: Global,
    at: &Surroundings<'_>,
    before: Second,
    keys: &[Key],
) -> Result<Option<Vec<usize>>, AllocError>
    requires { Ascend at.now.nodes.now }
    ensures { IfOk result (λ found. IfSome found (λ places. AreCovered
        (contents_at before at.now.db.now.committed)
        (contents_at at.now.moment at.now.db.now.present)
        at.now.nodes.now places.items keys.now)) }
{
    let mut places = Vec::new(alloc);
    for key in keys {
        if key.ls_type <= NETWORK_LSA {
            if !note_key(at, before, key, &mut places)? || are_many(&places, at.nodes) {
                return Ok(None);
            }
        }
    }
    Ok(Some(places))
}
