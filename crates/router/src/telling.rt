//! Whether the router-LSA has changed (RFC 2328, section 12.4.1).
ghost use Rattle.std.specs.Prelude.{◌≡◌, ◌&&◌, List, IfOk, length, not};
ghost use Rattle.received.specs.Links.{Link};
ghost use Rattle.event_rules.specs.Endings.{is_at, is_current, links_differ};
ghost use Rattle.router.specs.Full.{full_routers};
ghost use Rattle.router.specs.Making.{interfaces_of};

use crate::state::Router;
use std::alloc::{AllocError, Global};
use words::{RouterId, Second, router_key};

/// The Router IDs of the neighbors that are Full, interface n at index n - 1, `None` if there is
/// none. Together with the configuration they determine the router-LSA.
///
/// # Errors
/// `AllocError` if an allocation is refused.
pub fn full_routers(router: &Router, alloc: Global) -> Result<Vec<Option<RouterId>>, AllocError>
    ensures { IfOk result (λ full. full.items ≡ full_routers router.now.present.area.links) }
{
    crate::router::full_routers(alloc, router.area().links())
}

fn is_at(moment: Second, at: Option<Second>) -> bool
    ensures { result ≡ is_at moment at }
{
    let Some(at) = at else {
        return false;
    };
    at == moment
}

// Whether the copy of the router-LSA was originated at this moment and describes the present links.
fn is_current(router: &Router, alloc: Global, moment: Second) -> Result<bool, AllocError>
    ensures { IfOk result (λ current. current ≡ is_current moment router.now.present) }
{
    let key = router_key(router.id());
    let at = is_at(moment, router.originated(&key));
    if !at {
        return Ok(false);
    }
    let area = router.area();
    let copy = area.database().get(&key);
    crate::described::copy_describes(alloc, area.links(), copy)
}

/// Whether the body of the router-LSA differs from what it was when exactly the neighbors `before`
/// were Full.
///
/// # Errors
/// `AllocError` if an allocation is refused.
pub fn has_changed(
    router: &Router,
    alloc: Global,
    before: &[Option<RouterId>],
) -> Result<bool, AllocError>
    requires before { length before.now ≡ length router.now.present.area.links }
    ensures { IfOk result (λ differ. (old : List Link)
        → interfaces_of old ≡ interfaces_of router.now.present.area.links
        → full_routers old ≡ before.now
        → differ ≡ links_differ old router.now.present.area.links) }
{
    let area = router.area();
    crate::described::links_differ(alloc, area.links(), before)
}

/// Whether the body of the router-LSA differs from what it was when exactly the neighbors `before`
/// were Full, and no instance of this moment has it yet.
///
/// # Errors
/// `AllocError` if an allocation is refused.
pub fn is_outdated(
    router: &Router,
    alloc: Global,
    moment: Second,
    before: &[Option<RouterId>],
) -> Result<bool, AllocError>
    requires before { length before.now ≡ length router.now.present.area.links }
    ensures { IfOk result (λ outdated. (old : List Link)
        → interfaces_of old ≡ interfaces_of router.now.present.area.links
        → full_routers old ≡ before.now
        → outdated ≡ (links_differ old router.now.present.area.links
        && not (is_current moment router.now.present))) }
{
    let differ = has_changed(router, alloc, before)?;
    if !differ {
        return Ok(false);
    }
    let current = is_current(router, alloc, moment)?;
    Ok(!current)
}
