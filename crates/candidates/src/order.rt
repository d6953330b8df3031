//! The order of offers, the best one for a prefix first.
ghost use Rattle.std.specs.Prelude.{◌≡◌, ◌↔◌, IfOk};
ghost use Rattle.std.specs.List.{Contains};
ghost use Rattle.std.specs.List.Sorted.{IsSorted};
ghost use Rattle.candidates.specs.Borders.{RouteCostsFit};
ghost use Rattle.candidates.specs.Gathering.{OfferCostsFit};
ghost use Rattle.routes.specs.Best.{offer_cmp};
ghost use Rattle.routes.specs.Routes.{AreRoutesAmong};
ghost use Rattle.routes.specs.declared.offer.Offer.{Offer as OfferValue};

use routes::{Offer, routes_in_order};
use std::alloc::{AllocError, Global};
use std::cmp::Ordering;
use words::Route;

/// Orders offers by prefix, then better before worse, then by originator, tag and hops.
pub fn compare(a: &Offer, b: &Offer) -> Ordering
    ensures { result ≡ offer_cmp a.now b.now }
{
    a.prefix
        .compare(&b.prefix)
        .then(a.kind.compare(b.kind))
        .then(a.cost.cmp(&b.cost))
        .then(a.distance.cmp(&b.distance))
        .then(a.originator.number().cmp(&b.originator.number()))
        .then(a.tag.cmp(&b.tag))
        .then(a.hops.bits().cmp(&b.hops.bits()))
}

/// Sorts offers.
pub fn sort(offers: &mut Vec<Offer>)
    ensures sorted { IsSorted offer_cmp offers.new.items }
    ensures same { (o : OfferValue) → Contains offers.new.items o ↔ Contains offers.old.items o }
{
    offers.sort_unstable_by(|a, b| compare(a, b));
}

/// Sorts offers, and returns their routes in the order of the prefixes.
///
/// # Errors
/// `AllocError` if an allocation is refused.
pub fn routes_of_offers(alloc: Global, offers: &mut Vec<Offer>) -> Result<Vec<Route>, AllocError>
    ensures routes { IfOk result (λ routes. AreRoutesAmong
        (λ o. Contains offers.old.items o) routes.items) }
    ensures few { IfOk result (λ routes.
        OfferCostsFit offers.old.items → RouteCostsFit routes.items) }
    ensures same { (o : OfferValue) → Contains offers.new.items o ↔ Contains offers.old.items o }
{
    sort(offers);
    let routes = routes_in_order(alloc, offers)?;
    Ok(routes)
}
