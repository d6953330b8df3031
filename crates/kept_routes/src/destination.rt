//! The best route to one destination.
ghost use Rattle.std.specs.Prelude.{◌≡◌, IfOk, OnOk, slice_get};
ghost use Rattle.candidates.specs.Inner.{AreSearchable};
ghost use Rattle.kept_routes.specs.Destinations.{HaveAllUnder, IsBestTo, IsTo, Knows};
ghost use Rattle.kept_routes.specs.Destinations.{OffersTo, SaysTo};
ghost use Rattle.candidates.specs.Gathering.{Adds, IsOnly, OfEach};
ghost use Rattle.routes.specs.Contents.{contents_at};

use crate::keys::lies_under;
use candidates::{Inner, InnerRoutes, external_offer, push_offer, routes_of_offers};
use lsa::LsaBody;
use routes::{Lsdb, Offer, Root};
use std::alloc::{AllocError, Global};
use words::{Key, Prefix, Route, Second};

// The offer, if it is to the destination.
fn to(prefix: Prefix, offer: &Offer) -> Option<Offer>
    ensures { IsOnly (IsTo prefix offer.now) result }
{
    if offer.prefix == prefix {
        return Some(*offer);
    }
    None
}

// Adds those of these offers that are to the destination.
fn push_inner_to(inner: &[Offer], prefix: Prefix, offers: &mut Vec<Offer>) -> Result<(), AllocError>
    ensures { OnOk result (Adds offers.old.items offers.new.items
        (OfEach (IsTo prefix) inner.now)) }
{
    for offer in inner {
        push_offer(offers, to(prefix, offer))?;
    }
    Ok(())
}

// The offer of the AS-external-LSA with this key and body, if it is to the destination.
fn offer_to(
    root: &Root,
    inner: &InnerRoutes,
    prefix: Prefix,
    key: &Key,
    lsa_body: &LsaBody,
) -> Option<Offer>
    requires { AreSearchable inner.now }
    ensures { IsOnly (SaysTo root.now inner.now prefix (key.now, lsa_body.now)) result }
{
    let by = Inner {
        boundary_routes: &inner.boundary_routes,
        flagged: &inner.flagged,
        networks: &inner.networks,
        lengths: &inner.lengths,
    };
    match external_offer(root, &by, key, lsa_body) {
        None => None,
        Some(offer) => to(prefix, &offer),
    }
}

// The offer of the AS-external-LSA with this key, if it is to the destination.
fn external_to(
    db: &Lsdb,
    root: &Root,
    moment: Second,
    inner: &InnerRoutes,
    prefix: Prefix,
    key: &Key,
) -> Option<Offer>
    requires { AreSearchable inner.now }
    ensures { IsOnly (OffersTo (contents_at moment db.now.present) root.now inner.now prefix
        key.now)
        result }
{
    if !lies_under(prefix, key) {
        return None;
    }
    match db.body_at(moment, key) {
        None => None,
        Some(lsa_body) => offer_to(root, inner, prefix, key, lsa_body),
    }
}

// Adds the offers of the AS-external-LSAs with these keys that are to the destination.
fn push_externals_to(
    db: &Lsdb,
    root: &Root,
    moment: Second,
    inner: &InnerRoutes,
    prefix: Prefix,
    keys: &[Key],
    offers: &mut Vec<Offer>,
) -> Result<(), AllocError>
    requires { AreSearchable inner.now }
    ensures { OnOk result (Adds offers.old.items offers.new.items
        (OfEach (OffersTo (contents_at moment db.now.present) root.now inner.now prefix)
        keys.now)) }
{
    for key in keys {
        push_offer(offers, external_to(db, root, moment, inner, prefix, key))?;
    }
    Ok(())
}

/// The candidate for a destination. `keys` includes those of all AS-external-LSAs whose Link State
/// IDs are in the destination.
///
/// # Errors
/// `AllocError` if an allocation is refused.
pub fn best_to(
    alloc: Global,
    db: &Lsdb,
    root: &Root,
    moment: Second,
    inner: &InnerRoutes,
    prefix: Prefix,
    keys: &[Key],
) -> Result<Option<Route>, AllocError>
    requires inner { Knows (contents_at moment db.now.present) root.now inner.now }
    requires keys { HaveAllUnder db.now.present prefix keys.now }
    ensures { IfOk result (λ best. IsBestTo (contents_at moment db.now.present) root.now prefix
        best) }
{
    let mut offers = Vec::new(alloc);
    push_inner_to(&inner.offers, prefix, &mut offers)?;
    push_externals_to(db, root, moment, inner, prefix, keys, &mut offers)?;
    let routes = routes_of_offers(alloc, &mut offers)?;
    Ok(first_of(&routes))
}

fn first_of(routes: &[Route]) -> Option<Route>
    ensures { result ≡ slice_get routes.now 0 }
{
    match routes.get(0) {
        None => None,
        Some(route) => Some(*route),
    }
}
