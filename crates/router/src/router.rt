//! The router-LSA (RFC 2328, section 12.4.1).
ghost use Rattle.std.specs.Prelude.{◌≡◌, ◌≤◌, ◌++◌, length, map, IfOk, OnOk};
ghost use Rattle.std.specs.FinMap as finite;
ghost use Rattle.words.specs.Prefixes.{mask_of, network_address};
ghost use Rattle.event_rules.specs.Originations.{router_body, router_key, stub};
ghost use Rattle.area.specs.Links.{present};
ghost use Rattle.router.specs.Instances.{next_instance};
ghost use Rattle.router.specs.Described.{
  described_body,
  full_router,
  full_routers,
  interface_links,
  interfaces,
};

use crate::instance::next_instance;
use area::{Interface, Link, Lsdb, NeighborState};
use lsa::{LinkKind, Lsa, LsaBody, RouterLink, RouterLsa};
use std::alloc::{AllocError, Global};
use words::{Prefix, RouterId, Sequence, router_key};

// Bit E of a router-LSA's flags: an AS boundary router (RFC 2328, section A.4.2).
const BOUNDARY: u8 = 2;

// The neighbor's Router ID, if it is Full.
fn full_router(neighbor: Option<(RouterId, NeighborState)>) -> Option<RouterId>
    ensures { result ≡ full_router neighbor }
{
    let Some((router, state)) = neighbor else {
        return None;
    };
    match state {
        NeighborState::Init => None,
        NeighborState::ExStart => None,
        NeighborState::Exchange => None,
        NeighborState::Loading => None,
        NeighborState::Full => Some(router),
    }
}

fn subnet_address(interface: &Interface) -> u32
    ensures { result ≡ network_address interface.now.length interface.now.address }
{
    let address = interface.address;
    match Prefix::under(address, interface.length) {
        Some(prefix) => prefix.address().bits(),
        None => address.bits(),
    }
}

/// The mask of the interface's subnet; 255.255.255.255 if its prefix length is more than 32.
pub fn subnet_mask(interface: &Interface) -> u32
    ensures { result ≡ mask_of interface.now.length }
{
    let address = interface.address;
    match Prefix::under(address, interface.length) {
        Some(prefix) => prefix.mask().bits(),
        None => u32::MAX,
    }
}

// The stub link to the subnet.
fn stub(alloc: Global, interface: &Interface) -> RouterLink
    ensures { result ≡ stub interface.now }
{
    RouterLink {
        link_id: subnet_address(interface),
        link_data: subnet_mask(interface),
        kind: LinkKind::Stub,
        metric: interface.cost,
        tos: Sequence::from_vec(Vec::new(alloc)),
    }
}

// Appends the point-to-point link to the neighbor, if that is Full, and the stub link to the
// subnet.
fn put_described(
    alloc: Global,
    links: &mut Vec<RouterLink>,
    interface: &Interface,
    full: Option<RouterId>,
) -> Result<(), AllocError>
    ensures { OnOk result (links.new.items ≡ links.old.items
        ++ interface_links interface.now full) }
{
    if let Some(router) = full {
        links.push(RouterLink {
            link_id: router.number(),
            link_data: interface.address.bits(),
            kind: LinkKind::PointToPoint,
            metric: interface.cost,
            tos: Sequence::from_vec(Vec::new(alloc)),
        })?;
        links.push(stub(alloc, interface))?;
        return Ok(());
    }
    links.push(stub(alloc, interface))?;
    Ok(())
}

/// The Router IDs of the neighbors that are Full, interface n at index n - 1, `None` if there is
/// none. Together with the configuration they determine the router-LSA.
///
/// # Errors
/// `AllocError` if an allocation is refused.
pub fn full_routers(alloc: Global, links: &[Link]) -> Result<Vec<Option<RouterId>>, AllocError>
    ensures { IfOk result (λ full. full.items ≡ full_routers (map present links.now)) }
{
    let mut full = Vec::new(alloc);
    for i in 0..links.len() {
        full.push(full_router(links[i].neighbor()))?;
    }
    Ok(full)
}

/// The body of the router-LSA of these interfaces while these neighbors are Full: the links of each
/// interface in order. Of the flags only bit E is set, whether or not an external destination is
/// announced.
///
/// # Errors
/// `AllocError` if an allocation is refused.
pub fn described_body(
    alloc: Global,
    links: &[Link],
    full: &[Option<RouterId>],
) -> Result<LsaBody, AllocError>
    requires { length full.now ≡ length links.now }
    ensures { IfOk result (λ body. body
        ≡ described_body (interfaces (map present links.now)) full.now) }
{
    let mut router_links = Vec::new(alloc);
    for i in 0..links.len() {
        let interface = links[i].interface();
        put_described(alloc, &mut router_links, &interface, full[i])?;
    }
    Ok(LsaBody::Router(RouterLsa {
        flags: BOUNDARY,
        links: Sequence::from_vec(router_links),
    }))
}

/// The next instance of the router-LSA after the database copy for these links, interface n at
/// index n - 1: each has a point-to-point link to its neighbor, if that is Full, and a stub link to
/// its subnet (RFC 2328, section 12.4.1). `None` if the copy has MaxSequenceNumber: it is to be
/// flushed first.
///
/// # Errors
/// `AllocError` if an allocation is refused.
pub fn router_instance(
    alloc: Global,
    own: RouterId,
    links: &[Link],
    database: &Lsdb,
) -> Result<Option<Lsa>, AllocError>
    requires { length links.now ≤ 63 }
    ensures { let key = router_key own in
        IfOk result (λ instance. instance ≡ next_instance key
        (finite.get database.now.present key) (router_body (map present links.now))) }
{
    let key = router_key(own);
    let full = full_routers(alloc, links)?;
    let body = described_body(alloc, links, &full)?;
    next_instance(alloc, database, &key, body)
}
