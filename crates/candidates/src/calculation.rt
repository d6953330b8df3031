//! The best of all offers of a database for each prefix (RFC 2328, section 16).
ghost use Rattle.std.specs.Prelude.{◌≡◌, ◌≤◌, IfOk, length};
ghost use Rattle.std.specs.FinMap as finite;
ghost use Rattle.std.specs.List.{Contains};
ghost use Rattle.words.specs.Constants.{max_lsas};
ghost use Rattle.candidates.specs.Inner.{AreInner, AreSearchable};
ghost use Rattle.words.specs.declared.route.Route.{Route as RouteValue};
ghost use Rattle.routes.specs.Candidates.{AreCandidates, Offers};
ghost use Rattle.routes.specs.declared.offer.Offer.{Offer};
ghost use Rattle.routes.specs.Contents.{Contents, contents_at};
ghost use Rattle.candidates.specs.Externals.{AreExternals};
ghost use Rattle.candidates.specs.Ways.{DistancesFit, AreWays, Ways as WaysTo};

use crate::externals::{ExternalAdvertisement, Inner};
use crate::inner::{InnerRoutes, inner_of};
use crate::laws::every_offer_has_a_candidate;
use crate::order::routes_of_offers;
use crate::passes::{externals_of, push_externals};
use crate::root_alone::inner_alone;
use crate::walks::walk;
use crate::ways::Ways;
use lsdb::Lsdb;
use routes::Root;
use std::alloc::{AllocError, Global};
use words::{Route, Second};

/// The candidates of a database at a moment: exactly one route for each prefix that anything
/// offers, in the order of the prefixes (RFC 2328, section 16). The database has at most 16,384
/// LSAs, the root at most 63 interfaces.
///
/// # Errors
/// `AllocError` if an allocation is refused.
pub fn candidates(
    alloc: Global,
    db: &Lsdb,
    root: &Root,
    moment: Second,
) -> Result<Vec<Route>, AllocError>
    requires interfaces { length root.now.addresses ≤ 63 }
    requires size { finite.len db.now.present ≤ max_lsas }
    ensures candidates { IfOk result (λ routes.
        AreCandidates (contents_at moment db.now.present) root.now routes.items) }
    ensures every { IfOk result (λ routes. (o : Offer)
        → Offers (contents_at moment db.now.present) root.now o → (r : RouteValue)
        × Contains routes.items r × (r.prefix ≡ o.prefix)) }
{
    let reached = walk(alloc, db, root, moment)?;
    let routes = routes_of(alloc, db, root, moment, &reached)?;
    // For the prover alone, by what the call ensures.
    every_offer_has_a_candidate();
    Ok(routes)
}

/// The candidates of a database at a moment, given the ways by its links: one route for each prefix
/// that anything offers, in the order of the prefixes (RFC 2328, section 16). It takes the time of
/// a few passes over the LSAs; of a binary search for each summary and external destination, and
/// where there is a forwarding address of one more for each prefix length that occurs; and of three
/// sorts.
///
/// # Errors
/// `AllocError` if an allocation is refused.
pub fn routes_of<W: Ways>(
    alloc: Global,
    db: &Lsdb,
    root: &Root,
    moment: Second,
    ways: &W,
) -> Result<Vec<Route>, AllocError>
    requires near { DistancesFit (W.ways ways.now) }
    requires ways { AreWays (contents_at moment db.now.present) root.now (W.ways ways.now) }
    ensures { IfOk result (λ routes. AreCandidates (contents_at moment db.now.present) root.now
        routes.items) }
{
    let externals = externals_at(alloc, db, moment)?;
    let made = calculate(alloc, db, root, moment, ways, &externals)?;
    Ok(made.routes)
}

/// Candidates, with the results from the LSAs of types 1 to 4, on which external destinations
/// depend.
#[derive(Drop)]
pub struct Calculated {
    pub inner: InnerRoutes,
    pub routes: Vec<Route>,
}

/// What the AS-external-LSAs of a database advertise about external destinations at a moment.
///
/// # Errors
/// `AllocError` if an allocation is refused.
pub fn externals_at(
    alloc: Global,
    db: &Lsdb,
    moment: Second,
) -> Result<Vec<ExternalAdvertisement>, AllocError>
    ensures { IfOk result (λ advertised. AreExternals (contents_at moment db.now.present)
        advertised.items) }
{
    let bodies = db.bodies_at(alloc, None, moment)?;
    let advertised = externals_of(alloc, &bodies)?;
    Ok(advertised)
}

/// The candidates of a database at a moment as `routes_of` gives them, with what external
/// destinations depend on. `externals` is what AS-external-LSAs advertise at the moment.
///
/// # Errors
/// `AllocError` if an allocation is refused.
pub fn calculate<W: Ways>(
    alloc: Global,
    db: &Lsdb,
    root: &Root,
    moment: Second,
    ways: &W,
    externals: &[ExternalAdvertisement],
) -> Result<Calculated, AllocError>
    requires near { DistancesFit (W.ways ways.now) }
    requires ways { AreWays (contents_at moment db.now.present) root.now (W.ways ways.now) }
    requires externals { AreExternals (contents_at moment db.now.present) externals.now }
    ensures routes { IfOk result (λ made. AreCandidates (contents_at moment db.now.present) root.now
        made.routes.items) }
    ensures inner { IfOk result (λ made. AreInner (contents_at moment db.now.present) root.now
        (W.ways ways.now) made.inner) }
    ensures searchable { IfOk result (λ made. AreSearchable made.inner) }
{
    let inner = inner_at(alloc, db, root, moment, ways)?;
    let routes = with_externals(alloc, root, &inner, externals)?;
    Ok(Calculated { inner, routes })
}

// The results from the LSAs of types 1 to 4 at a moment. If the root alone is reached, as while the
// database is loaded, no LSA but its own is visited.
fn inner_at<W: Ways>(
    alloc: Global,
    db: &Lsdb,
    root: &Root,
    moment: Second,
    ways: &W,
) -> Result<InnerRoutes, AllocError>
    requires near { DistancesFit (W.ways ways.now) }
    requires ways { AreWays (contents_at moment db.now.present) root.now (W.ways ways.now) }
    ensures searchable { IfOk result (λ inner. AreSearchable inner) }
    ensures inner { IfOk result (λ inner. AreInner (contents_at moment db.now.present) root.now
        (W.ways ways.now) inner) }
{
    if ways.reach_root_alone(root) {
        return inner_alone(alloc, db, root, moment, ways);
    }
    let bodies = db.bodies_at(alloc, Some(4), moment)?;
    inner_of(alloc, root, ways, &bodies)
}

// The routes of the inner offers and of the offers of these AS-external-LSAs; only the networks if
// there are none.
fn with_externals(
    alloc: Global,
    root: &Root,
    inner: &InnerRoutes,
    externals: &[ExternalAdvertisement],
) -> Result<Vec<Route>, AllocError>
    requires { AreSearchable inner.now }
    ensures { IfOk result (λ routes. (contents : Contents) (ways : WaysTo)
        → AreWays contents root.now ways
        → AreInner contents root.now ways inner.now → AreExternals contents externals.now
        → AreCandidates contents root.now routes.items) }
{
    if externals.is_empty() {
        let networks = Vec::from_slice(alloc, &inner.networks)?;
        return Ok(networks);
    }
    let by = Inner {
        boundary_routes: &inner.boundary_routes,
        flagged: &inner.flagged,
        networks: &inner.networks,
        lengths: &inner.lengths,
    };
    let most = inner.offers.len().saturating_add(externals.len());
    let mut offers = Vec::with_capacity(alloc, most)?;
    offers.extend_from_slice(&inner.offers)?;
    push_externals(alloc, root, &by, externals, &mut offers)?;
    let routes = routes_of_offers(alloc, &mut offers)?;
    Ok(routes)
}
