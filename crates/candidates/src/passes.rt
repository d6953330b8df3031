//! The offers of all LSAs of a database.
ghost use Rattle.std.specs.Prelude.{◌≡◌, [], IfOk, OnOk};
ghost use Rattle.routes.specs.Routes.{AreRoutesAmong};
ghost use Rattle.candidates.specs.Borders.{
  RouteCostsFit,
  FlaggedDistancesFit,
  Ascend,
  AscendByRouter,
  HasLengths,
  Tells,
};
ghost use Rattle.candidates.specs.Gathering.{Adds, OfferCostsFit, OfEach};
ghost use Rattle.candidates.specs.Externals.{AreAdvertisedBy, OfExternalAdvertisement};
ghost use Rattle.candidates.specs.Sources.{IsInner};
ghost use Rattle.candidates.specs.Ways.{DistancesFit};

use crate::area::push_inner;
use crate::borders::boundary_offer;
use crate::externals::{ExternalAdvertisement, Inner, advertised_external, offer_of_external};
use crate::flagged::{Flagged, slots_of};
use crate::gathering::push_offer;
use crate::order::routes_of_offers;
use crate::ways::Ways;
use lsdb::KeyedBody;
use routes::{Offer, Root};
use std::alloc::{AllocError, Global};
use words::Route;

/// What summary-LSAs advertise about AS boundary routers, as routes to the routers' host prefixes.
///
/// # Errors
/// `AllocError` if an allocation is refused.
pub fn boundary_routes(
    alloc: Global,
    root: &Root,
    routers: &[Flagged],
    bodies: &[KeyedBody<'_>],
) -> Result<Vec<Route>, AllocError>
    requires ascend { AscendByRouter routers.now }
    requires close { FlaggedDistancesFit routers.now }
    ensures routes { IfOk result (λ routes. AreRoutesAmong
        (OfEach (Tells root.now routers.now) bodies.now)
        routes.items) }
    ensures few { IfOk result (λ routes. RouteCostsFit routes.items) }
{
    let mut offers = Vec::new(alloc);
    for one in bodies {
        push_offer(
            &mut offers,
            boundary_offer(root, routers, one.key(), one.body()),
        )?;
    }
    let routes = routes_of_offers(alloc, &mut offers)?;
    Ok(routes)
}

/// What the LSAs offer within the area and between areas.
///
/// # Errors
/// `AllocError` if an allocation is refused.
pub fn inner_offers<W: Ways>(
    alloc: Global,
    root: &Root,
    ways: &W,
    routers: &[Flagged],
    bodies: &[KeyedBody<'_>],
) -> Result<Vec<Offer>, AllocError>
    requires near { DistancesFit (W.ways ways.now) }
    requires ascend { AscendByRouter routers.now }
    requires close { FlaggedDistancesFit routers.now }
    ensures adds { IfOk result (λ offers. Adds [] offers.items
        (OfEach (IsInner root.now (W.ways ways.now) routers.now) bodies.now)) }
    ensures cheap { IfOk result (λ offers. OfferCostsFit offers.items) }
{
    let mut offers = Vec::new(alloc);
    for one in bodies {
        push_inner(root, ways, routers, one.key(), one.body(), &mut offers)?;
    }
    Ok(offers)
}

/// What the AS-external-LSAs among these advertise about external destinations, in the order of the
/// bodies.
///
/// # Errors
/// `AllocError` if an allocation is refused.
pub fn externals_of(
    alloc: Global,
    bodies: &[KeyedBody<'_>],
) -> Result<Vec<ExternalAdvertisement>, AllocError>
    ensures { IfOk result (λ advertised. AreAdvertisedBy bodies.now advertised.items) }
{
    let mut all = Vec::new(alloc);
    for one in bodies {
        if let Some(advertised) = advertised_external(one.key(), one.body()) {
            all.push(advertised)?;
        }
    }
    Ok(all)
}

/// Adds the offers of these external destinations.
///
/// # Errors
/// `AllocError` if an allocation is refused.
pub fn push_externals(
    alloc: Global,
    root: &Root,
    inner: &Inner<'_>,
    externals: &[ExternalAdvertisement],
    offers: &mut Vec<Offer>,
) -> Result<(), AllocError>
    requires flagged { AscendByRouter inner.now.flagged.now
        × FlaggedDistancesFit inner.now.flagged.now }
    requires routers { Ascend inner.now.boundary_routes.now
        × RouteCostsFit inner.now.boundary_routes.now }
    requires networks { Ascend inner.now.networks.now × RouteCostsFit inner.now.networks.now }
    requires lengths { HasLengths inner.now.networks.now inner.now.lengths.now }
    ensures { OnOk result (Adds offers.old.items offers.new.items
        (OfEach (OfExternalAdvertisement root.now inner.now.flagged.now
        inner.now.boundary_routes.now inner.now.networks.now) externals.now)) }
{
    let slots = slots_of(alloc, inner.flagged)?;
    for advertised in externals {
        let place = slots.expected_at(advertised.originator.number());
        push_offer(offers, offer_of_external(root, inner, place, advertised))?;
    }
    Ok(())
}
