//! The root of a router's shortest-path calculations.
ghost use Rattle.std.specs.Prelude.{◌≡◌, ◌↔◌, IfOk, IsTrue, map};
ghost use Rattle.area.specs.Links.{present};
ghost use Rattle.area_routes.specs.Offers.{root_by};

use area::{Area, Link};
use routes::Root;
use std::alloc::{AllocError, Global};
use words::{Address, RouterId, Sequence};

fn address_of(link: &Link) -> Address
    ensures { result ≡ (present link.now).interface.address }
{
    link.interface().address
}

fn addresses_of(alloc: Global, links: &[Link]) -> Result<Vec<Address>, AllocError>
    ensures { IfOk result (λ addresses.
        addresses.items ≡ map (λ link. (present link).interface.address) links.now) }
{
    let mut addresses = Vec::new(alloc);
    for link in links {
        addresses.push(address_of(link))?;
    }
    Ok(addresses)
}

/// The root of the shortest-path calculation (RFC 2328, section 16.1): this router, with the
/// addresses of its interfaces, interface n at index n - 1.
///
/// # Errors
/// `AllocError` if an allocation is refused.
pub fn root_of(alloc: Global, router: RouterId, area: &Area) -> Result<Root, AllocError>
    ensures { IfOk result (λ root. root ≡ root_by router area.now.present.links) }
{
    let addresses = addresses_of(alloc, area.links())?;
    Ok(Root {
        router,
        addresses: Sequence::from_vec(addresses),
    })
}

fn are_addresses(addresses: &[Address], links: &[Link]) -> bool
    ensures { IsTrue result
        ↔ (addresses.now ≡ map (λ link. (present link).interface.address) links.now) }
{
    if addresses.len() != links.len() {
        return false;
    }
    for at in 0..links.len() {
        if addresses[at].bits() != address_of(&links[at]).bits() {
            return false;
        }
    }
    true
}

/// Whether this is the root that `root_of` gives: the router's own ID, and the addresses of its
/// interfaces.
pub fn is_root_of(root: &Root, router: RouterId, area: &Area) -> bool
    ensures { IsTrue result ↔ (root.now ≡ root_by router area.now.present.links) }
{
    let same = root.router.number() == router.number();
    same && are_addresses(root.addresses.as_slice(), area.links())
}
