//! What AS-external-LSAs offer (RFC 2328, section 16.4).
ghost use Rattle.std.specs.Prelude.{◌≡◌, ◌<◌, IfSome};
ghost use Rattle.candidates.specs.Borders.{
  RouteCostsFit,
  FlaggedDistancesFit,
  Ascend,
  AscendByRouter,
  HasLengths,
  IsOutwardBy,
};
ghost use Rattle.candidates.specs.Externals.{OfExternalAdvertisement, TellsExternal};
ghost use Rattle.candidates.specs.Gathering.{IsOnly};
ghost use Rattle.candidates.specs.Sources.{OfExternal};

use crate::borders::boundary_way;
use crate::flagged::Flagged;
use crate::gathering::network_of;
use crate::offer::{external, inner_way};
use crate::search::longest_match;
use lsa::LsaBody;
use routes::{Offer, Root, Way};
use words::{Address, ExternalType, Key, LS_INFINITY, Prefix, Route, RouterId};

/// What external destinations are reached by: AS boundary routers that summary-LSAs advertise, by
/// their host prefixes, and the networks within and between areas, both in the order of their
/// prefixes.
#[derive(Drop)]
pub struct Inner<'a> {
    pub boundary_routes: &'a [Route],
    /// The area border routers and AS boundary routers of the area, in the order of their Router
    /// IDs.
    pub flagged: &'a [Flagged],
    pub networks: &'a [Route],
    /// The lengths that the networks' prefixes have.
    pub lengths: &'a [bool; 33],
}

/// What an AS-external-LSA advertises about a destination (RFC 2328, section A.4.5).
#[derive(Clone, Copy)]
pub struct ExternalAdvertisement {
    pub prefix: Prefix,
    pub originator: RouterId,
    pub kind: ExternalType,
    /// At most 0xffffff (LSInfinity), which means unreachable.
    pub metric: u32,
    /// Where its traffic is forwarded to; 0.0.0.0 for the originator.
    pub forwarding: Address,
    pub tag: u32,
}

/// What the AS-external-LSA with this key advertises, if it is one and its mask gives a network.
pub fn advertised_external(key: &Key, body: &LsaBody) -> Option<ExternalAdvertisement>
    ensures { IsOnly (TellsExternal (key.now, body.now)) result }
{
    if key.ls_type != 5 {
        return None;
    }
    let LsaBody::External(lsa) = body else {
        return None;
    };
    let prefix = network_of(key, lsa.mask)?;
    Some(ExternalAdvertisement {
        prefix,
        originator: key.advertising_router,
        kind: lsa.kind,
        metric: lsa.metric,
        forwarding: lsa.forwarding,
        tag: lsa.tag,
    })
}

// The way to an external destination: to its forwarding address, or to its originator if that is
// 0.0.0.0. The search for the originator begins at index `place`.
fn outward_way(
    inner: &Inner<'_>,
    place: usize,
    originator: RouterId,
    forwarding: Address,
) -> Option<Way>
    requires flagged { AscendByRouter inner.now.flagged.now
        × FlaggedDistancesFit inner.now.flagged.now }
    requires routers { Ascend inner.now.boundary_routes.now
        × RouteCostsFit inner.now.boundary_routes.now }
    requires networks { Ascend inner.now.networks.now × RouteCostsFit inner.now.networks.now }
    requires lengths { HasLengths inner.now.networks.now inner.now.lengths.now }
    ensures only { IsOnly (IsOutwardBy inner.now.flagged.now inner.now.boundary_routes.now
        inner.now.networks.now originator forwarding) result }
    ensures near { IfSome result (λ way. way.distance < 2147483648) }
{
    let boundary = boundary_way(inner.flagged, place, inner.boundary_routes, originator)?;
    if forwarding.is_unspecified() {
        return Some(boundary);
    }
    let route = longest_match(inner.networks, inner.lengths, forwarding)?;
    Some(inner_way(route))
}

/// The offer of an AS-external-LSA that advertises this. The search for its originator begins at
/// index `place`.
pub fn offer_of_external(
    root: &Root,
    inner: &Inner<'_>,
    place: usize,
    advertised: &ExternalAdvertisement,
) -> Option<Offer>
    requires flagged { AscendByRouter inner.now.flagged.now
        × FlaggedDistancesFit inner.now.flagged.now }
    requires routers { Ascend inner.now.boundary_routes.now
        × RouteCostsFit inner.now.boundary_routes.now }
    requires networks { Ascend inner.now.networks.now × RouteCostsFit inner.now.networks.now }
    requires lengths { HasLengths inner.now.networks.now inner.now.lengths.now }
    ensures { IsOnly (OfExternalAdvertisement root.now inner.now.flagged.now
        inner.now.boundary_routes.now inner.now.networks.now advertised.now) result }
{
    if advertised.metric >= LS_INFINITY || advertised.originator == root.router {
        return None;
    }
    let way = outward_way(inner, place, advertised.originator, advertised.forwarding)?;
    Some(external(advertised, way))
}

/// What an AS-external-LSA offers.
pub fn external_offer(root: &Root, inner: &Inner<'_>, key: &Key, body: &LsaBody) -> Option<Offer>
    requires flagged { AscendByRouter inner.now.flagged.now
        × FlaggedDistancesFit inner.now.flagged.now }
    requires routers { Ascend inner.now.boundary_routes.now
        × RouteCostsFit inner.now.boundary_routes.now }
    requires networks { Ascend inner.now.networks.now × RouteCostsFit inner.now.networks.now }
    requires lengths { HasLengths inner.now.networks.now inner.now.lengths.now }
    ensures { IsOnly (OfExternal root.now inner.now.flagged.now inner.now.boundary_routes.now
        inner.now.networks.now (key.now, body.now)) result }
{
    let advertised = advertised_external(key, body)?;
    offer_of_external(root, inner, 0, &advertised)
}
