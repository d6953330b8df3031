//! What the LSAs of routers and transit networks say at a moment.
ghost use Rattle.std.specs.Prelude.{◌≡◌, ◌↔◌, IsTrue, Some, option_copied};
ghost use Rattle.lsdb.specs.Bodies.{AreBodies};
ghost use Rattle.routes.specs.Contents.{contents_at};
ghost use Rattle.candidates.specs.Nodes.{network_lsa, router_lsa};

use crate::lookups::few_from;
use lsa::{LsaBody, NetworkLsa, RouterLsa};
use lsdb::{KeyedBody, Lsdb};
use words::{Key, LinkStateId, RouterId, Second, router_key};

/// The greatest LS type that makes nodes: router-LSAs and network-LSAs do (RFC 2328, section
/// A.4.1).
pub const NETWORK_LSA: u32 = 2;

/// A database at a moment, with what its router-LSAs and network-LSAs say then, in the order of
/// their keys. That is the order of the nodes too, so that each LSA is found at the index of its
/// node, or shortly after.
#[derive(Drop)]
pub struct Advertised<'a> {
    pub db: &'a Lsdb,
    pub moment: Second,
    pub bodies: &'a [KeyedBody<'a>],
}

// What the LSA with this key says, unless it is at MaxAge. The search begins at index `place`.
fn body_near<'a>(advertised: &Advertised<'a>, place: usize, key: &Key) -> Option<&'a LsaBody>
    requires { AreBodies (Some 2) (contents_at advertised.now.moment advertised.now.db.now.present)
        advertised.now.bodies.now }
    ensures { option_copied result ≡ contents_at advertised.now.moment advertised.now.db.now.present
        key.now }
{
    let bodies = advertised.bodies;
    let end = few_from(place, bodies.len());
    for at in place..end {
        let one = &bodies[at];
        if is_same_key(one.key(), key) {
            return Some(one.body());
        }
    }
    advertised.db.body_at(advertised.moment, key)
}

fn is_same_key(a: &Key, b: &Key) -> bool
    ensures { IsTrue result ↔ (a.now ≡ b.now) }
{
    *a == *b
}

/// The router-LSA of a router, whose node is expected at index `place`.
pub fn router_lsa<'a>(
    advertised: &Advertised<'a>,
    place: usize,
    router: RouterId,
) -> Option<&'a RouterLsa>
    requires { AreBodies (Some 2) (contents_at advertised.now.moment advertised.now.db.now.present)
        advertised.now.bodies.now }
    ensures { option_copied result
        ≡ router_lsa (contents_at advertised.now.moment advertised.now.db.now.present) router }
{
    let key = router_key(router);
    match body_near(advertised, place, &key) {
        Some(LsaBody::Router(lsa)) => Some(lsa),
        _ => None,
    }
}

/// The network-LSA with this Link State ID and Advertising Router, whose node is expected at index
/// `place`.
pub fn network_lsa<'a>(
    advertised: &Advertised<'a>,
    place: usize,
    id: LinkStateId,
    by: RouterId,
) -> Option<&'a NetworkLsa>
    requires { AreBodies (Some 2) (contents_at advertised.now.moment advertised.now.db.now.present)
        advertised.now.bodies.now }
    ensures { option_copied result
        ≡ network_lsa (contents_at advertised.now.moment advertised.now.db.now.present) id by }
{
    let key = Key {
        ls_type: 2,
        link_state_id: id,
        advertising_router: by,
    };
    match body_near(advertised, place, &key) {
        Some(LsaBody::Network(lsa)) => Some(lsa),
        _ => None,
    }
}
