//! Area border routers and AS boundary routers, with the ways to them (RFC 2328, section A.4.2).
ghost use Rattle.std.specs.Prelude.{◌≡◌, ◌<◌, IfOk, IfSome};
ghost use Rattle.std.specs.List.{Contains};
ghost use Rattle.std.specs.Ordering.{nat_cmp};
ghost use Rattle.lsdb.specs.Bodies.{InOrder};
ghost use Rattle.candidates.specs.Bodies.{HaveAll};
ghost use Rattle.candidates.specs.Borders.{
  FlaggedDistancesFit,
  AreFlagged,
  AscendByRouter,
  IsListed,
  TellsFlags,
};
ghost use Rattle.candidates.specs.Gathering.{IsOnly};
ghost use Rattle.candidates.specs.Ways.{DistancesFit};
ghost use Rattle.routes.specs.Contents.{Contents};

use crate::slots::Slots;
use crate::ways::Ways;
use lsa::LsaBody;
use lsdb::KeyedBody;
use routes::{Node, Way};
use std::alloc::{AllocError, Global};
use std::cmp::Ordering;
use words::{Key, RouterId};

/// A reachable router, with the flags of its router-LSA.
#[derive(Clone, Copy)]
pub struct Flagged {
    pub router: RouterId,
    pub flags: u8,
    pub way: Way,
}

// The flags of area border routers and of AS boundary routers.
pub const BORDER: u8 = 1;

pub const BOUNDARY: u8 = 2;

/// The router whose LSA has this key, if it has a flag and is reachable.
pub fn flagged_at<W: Ways>(ways: &W, key: &Key, body: &LsaBody) -> Option<Flagged>
    ensures { IsOnly (TellsFlags (W.ways ways.now) (key.now, body.now)) result }
{
    if key.ls_type != 1 || key.link_state_id.number() != key.advertising_router.number() {
        return None;
    }
    let LsaBody::Router(lsa) = body else {
        return None;
    };
    if lsa.flags & BORDER != BORDER && lsa.flags & BOUNDARY != BOUNDARY {
        return None;
    }
    let way = ways.way_to(&Node::ARouter(key.advertising_router))?;
    Some(Flagged {
        router: key.advertising_router,
        flags: lsa.flags,
        way,
    })
}

/// The reachable area border routers and AS boundary routers, in the order of their Router IDs, so
/// that none is looked up in the database for each LSA that it originated. The bodies are in the
/// order of their keys, and include those of all router-LSAs.
///
/// # Errors
/// `AllocError` if an allocation is refused.
pub fn flagged_routers<W: Ways>(
    alloc: Global,
    ways: &W,
    bodies: &[KeyedBody<'_>],
) -> Result<Vec<Flagged>, AllocError>
    requires near { DistancesFit (W.ways ways.now) }
    requires order { InOrder bodies.now }
    ensures flagged { IfOk result (λ routers. (contents : Contents) → HaveAll 1 contents bodies.now
        → AreFlagged contents (W.ways ways.now) routers.items) }
    ensures ascend { IfOk result (λ routers. AscendByRouter routers.items) }
    ensures close { IfOk result (λ routers. FlaggedDistancesFit routers.items) }
{
    let mut routers = Vec::new(alloc);
    for one in bodies {
        if let Some(router) = flagged_at(ways, one.key(), one.body()) {
            routers.push(router)?;
        }
    }
    Ok(routers)
}

/// The indices of these routers, each in the slot of its Router ID.
///
/// # Errors
/// `AllocError` if an allocation is refused.
pub fn slots_of(alloc: Global, routers: &[Flagged]) -> Result<Slots, AllocError> {
    let mut slots = Slots::with_room(alloc, routers.len())?;
    for at in 0..routers.len() {
        slots.put(routers[at].router.number(), at);
    }
    Ok(slots)
}

fn compare(listed: &Flagged, router: RouterId) -> Ordering
    ensures { result ≡ nat_cmp listed.now.router router }
{
    listed.router.number().cmp(&router.number())
}

// The element at this index, if it is this router.
fn at_index(routers: &[Flagged], place: usize, router: RouterId) -> Option<Flagged>
    ensures { IfSome result (λ listed. Contains routers.now listed × (listed.router ≡ router)) }
{
    if place >= routers.len() {
        return None;
    }
    let listed = routers[place];
    if listed.router.number() != router.number() {
        return None;
    }
    Some(listed)
}

// The router among them, found at its expected index or by binary search.
fn find_router(routers: &[Flagged], place: usize, router: RouterId) -> Option<Flagged>
    requires { AscendByRouter routers.now }
    ensures { IsOnly (λ listed. Contains routers.now listed × (listed.router ≡ router)) result }
{
    if let Some(listed) = at_index(routers, place, router) {
        return Some(listed);
    }
    match routers.binary_search_by(|listed| compare(listed, router)) {
        Ok(at) => Some(routers[at]),
        Err(_) => None,
    }
}

/// The way to a router with this flag. The search begins at index `place`.
pub fn flagged_way(routers: &[Flagged], place: usize, router: RouterId, flag: u8) -> Option<Way>
    requires ascend { AscendByRouter routers.now }
    requires close { FlaggedDistancesFit routers.now }
    ensures only { IsOnly (IsListed routers.now router flag) result }
    ensures near { IfSome result (λ way. way.distance < 1073741824) }
{
    let listed = find_router(routers, place, router)?;
    if listed.flags & flag != flag {
        return None;
    }
    Some(listed.way)
}
