//! The best offers for each prefix, as one route.
ghost use Rattle.std.specs.Prelude.{◌≡◌, ◌↔◌, ◌⊎◌, IfOk, IsTrue};
ghost use Rattle.std.specs.List.{Contains};
ghost use Rattle.std.specs.List.Sorted.{IsSorted};
ghost use Rattle.routes.specs.Best.{AsGood, joined_route, offer_cmp, route_of};
ghost use Rattle.routes.specs.Routes.{AreRoutesAmong};

use crate::offer::Offer;
use std::alloc::{AllocError, Global};
use words::{Prefix, Route};

/// The routes of the offers, in the order of their prefixes (RFC 2328, sections 11, 16.1 and 16.4).
/// The offers are sorted: the first one for a prefix is the best one, and equally good ones add
/// their next hops. Of several equally good ones the first, whose tag the route gets, is that of
/// the least originator, and of one originator that with the least tag.
///
/// # Errors
/// `AllocError` if an allocation is refused.
pub fn routes_in_order(alloc: Global, offers: &[Offer]) -> Result<Vec<Route>, AllocError>
    requires { IsSorted offer_cmp offers.now }
    ensures { IfOk result (λ routes. AreRoutesAmong (λ o. Contains offers.now o) routes.items) }
{
    let mut routes: Vec<Route> = Vec::new(alloc);
    for &offer in offers {
        match routes.pop() {
            None => routes.push(route_by(offer))?,
            Some(last) => {
                if is_same(last.prefix, offer.prefix) {
                    routes.push(with_offer(last, offer))?;
                } else {
                    routes.push(last)?;
                    routes.push(route_by(offer))?;
                }
            }
        }
    }
    Ok(routes)
}

fn is_same(a: Prefix, b: Prefix) -> bool
    ensures { IsTrue result ↔ (a ≡ b) }
{
    a == b
}

fn route_by(offer: Offer) -> Route
    ensures { result ≡ route_of offer }
{
    Route {
        prefix: offer.prefix,
        kind: offer.kind,
        cost: offer.cost,
        distance: offer.distance,
        hops: offer.hops,
        tag: offer.tag,
    }
}

// The route with the next hops of one more offer, if that is equally good.
fn with_offer(route: Route, offer: Offer) -> Route
    ensures { (AsGood route offer × (result ≡ joined_route route offer)) ⊎ ((AsGood route offer → ⊥)
        × (result ≡ route)) }
{
    if route.kind == offer.kind && route.cost == offer.cost && route.distance == offer.distance {
        Route {
            hops: route.hops.join(offer.hops),
            ..route
        }
    } else {
        route
    }
}
