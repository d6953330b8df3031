//! Offers of each kind, and routers as host prefixes.
ghost use Rattle.std.specs.Prelude.{◌≡◌, ◌<◌};
ghost use Rattle.words.specs.Constants.{ls_infinity};
ghost use Rattle.routes.specs.Offers.{intra};
ghost use Rattle.routes.specs.Summaries.{inter};
ghost use Rattle.candidates.specs.Borders.{host, inner_way};
ghost use Rattle.candidates.specs.Externals.{offer_by};

use crate::externals::ExternalAdvertisement;
use routes::{Offer, Way};
use words::{Address, ExternalType, Hops, Prefix, Route, RouteKind, RouterId};

/// An offer within the area.
pub fn intra(prefix: Prefix, cost: u32, hops: u64) -> Offer
    ensures { result ≡ intra prefix cost hops }
{
    Offer {
        prefix,
        kind: RouteKind::Intra,
        cost,
        distance: 0,
        originator: RouterId::UNSPECIFIED,
        tag: 0,
        hops: Hops::from_bits(hops),
    }
}

/// An offer of an area border router.
pub fn inter(prefix: Prefix, cost: u32, hops: u64) -> Offer
    ensures { result ≡ inter prefix cost hops }
{
    Offer {
        prefix,
        kind: RouteKind::Inter,
        cost,
        distance: 0,
        originator: RouterId::UNSPECIFIED,
        tag: 0,
        hops: Hops::from_bits(hops),
    }
}

/// An offer of an AS boundary router. The way leads to it or to the forwarding address.
pub fn external(advertised: &ExternalAdvertisement, way: Way) -> Offer
    requires near { way.distance < 2147483648 }
    requires metric { advertised.now.metric < ls_infinity }
    ensures { result ≡ offer_by advertised.now way }
{
    match advertised.kind {
        ExternalType::Type1 => Offer {
            prefix: advertised.prefix,
            kind: RouteKind::External1,
            cost: way.distance + advertised.metric,
            distance: 0,
            originator: advertised.originator,
            tag: advertised.tag,
            hops: Hops::from_bits(way.hops),
        },
        ExternalType::Type2 => Offer {
            prefix: advertised.prefix,
            kind: RouteKind::External2,
            cost: advertised.metric,
            distance: way.distance,
            originator: advertised.originator,
            tag: advertised.tag,
            hops: Hops::from_bits(way.hops),
        },
    }
}

/// The host prefix by which the router appears in a list of routes.
pub fn host(router: u32) -> Prefix
    ensures { result ≡ host router }
{
    Prefix::under(Address::new(router), 32).unwrap()
}

/// The way of an intra-area or inter-area route. Of a type 2 external one the cost isn't that of a
/// way.
pub fn inner_way(route: Route) -> Way
    ensures { result ≡ inner_way route }
{
    Way {
        distance: route.cost,
        hops: route.hops.bits(),
    }
}
