//! Which self-originated LSAs are wanted, and what happens to them.
ghost use Rattle.std.specs.Prelude.{◌≡◌, IfOk};
ghost use Rattle.keyed_map.specs.Keys.{same_key};
ghost use Rattle.event_rules.specs.Originations.{router_key, should_originate, wanted_body};
ghost use Rattle.router.specs.Wanted.{wanted_origination};

use crate::origination::{Origination, decide_external_lsa, decide_router_lsa};
use crate::state::Router;
use std::alloc::{AllocError, Global};
use words::{Key, RouterId, Second, router_key};

fn is_same(a: &Key, b: &Key) -> bool
    ensures { result ≡ same_key a.now b.now }
{
    a.compare(b).is_eq()
}

fn names_router_lsa(own: RouterId, key: &Key) -> bool
    ensures { result ≡ same_key key.now (router_key own) }
{
    let own_key = router_key(own);
    is_same(key, &own_key)
}

/// Whether this router is to originate an LSA of this key: it is the router-LSA, or that of an
/// announced destination.
pub fn should_originate(router: &Router, key: &Key) -> bool
    ensures { result ≡ should_originate (wanted_body router.now.present key.now) }
{
    if names_router_lsa(router.id(), key) {
        return true;
    }
    router.announced().contains(key)
}

/// What happens to the self-originated LSA of this key; `None` if it isn't wanted.
///
/// # Errors
/// `AllocError` if an allocation is refused.
pub fn wanted_origination(
    router: &Router,
    alloc: Global,
    may_now: bool,
    moment: Second,
    key: &Key,
) -> Result<Option<Origination>, AllocError>
    ensures { IfOk result (λ found. found ≡ wanted_origination may_now moment key.now
        router.now.present (wanted_body router.now.present key.now)) }
{
    let own = router.id();
    let last = router.originated(key);
    let area = router.area();
    if names_router_lsa(own, key) {
        let links = area.links();
        let found = decide_router_lsa(alloc, may_now, moment, own, links, area.database(), last)?;
        return Ok(Some(found));
    }
    let Some(external) = router.announced().get(key) else {
        return Ok(None);
    };
    let database = area.database();
    let found = decide_external_lsa(alloc, may_now, moment, own, external, database, last)?;
    Ok(Some(found))
}
