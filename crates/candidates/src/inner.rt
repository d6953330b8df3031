//! The results from the LSAs of types 1 to 4 (RFC 2328, sections 16.1 and 16.2), on which external
//! destinations depend (section 16.4).
ghost use Rattle.std.specs.Prelude.{◌≡◌, IfOk};
ghost use Rattle.candidates.specs.Inner.{AreInner, AreSearchable};
ghost use Rattle.lsdb.specs.Bodies.{InOrder};
ghost use Rattle.candidates.specs.Bodies.{HaveAll};
ghost use Rattle.candidates.specs.Ways.{DistancesFit, AreWays};
ghost use Rattle.routes.specs.Contents.{Contents};

use crate::flagged::{Flagged, flagged_routers};
use crate::order::routes_of_offers;
use crate::passes::{boundary_routes, inner_offers};
use crate::search::lengths_of;
use crate::ways::Ways;
use lsdb::KeyedBody;
use routes::{Offer, Root};
use std::alloc::{AllocError, Global};
use words::Route;

/// The results from router-LSAs, network-LSAs and summary-LSAs.
#[derive(Drop)]
pub struct InnerRoutes {
    /// The reachable area border routers and AS boundary routers, in the order of their Router IDs.
    pub flagged: Vec<Flagged>,
    /// What summary-LSAs advertise about AS boundary routers, as routes to the routers' host
    /// prefixes.
    pub boundary_routes: Vec<Route>,
    /// The networks within the area and between areas, in the order of their prefixes.
    pub networks: Vec<Route>,
    /// The lengths that the networks' prefixes have.
    pub lengths: [bool; 33],
    /// The offers within the area and between areas.
    pub offers: Vec<Offer>,
}

/// The results from the LSAs of types 1 to 4. The bodies include all of these types, in the order
/// of their keys; others make no difference.
///
/// # Errors
/// `AllocError` if an allocation is refused.
pub fn inner_of<W: Ways>(
    alloc: Global,
    root: &Root,
    ways: &W,
    bodies: &[KeyedBody<'_>],
) -> Result<InnerRoutes, AllocError>
    requires near { DistancesFit (W.ways ways.now) }
    requires order { InOrder bodies.now }
    ensures searchable { IfOk result (λ inner. AreSearchable inner) }
    ensures inner { IfOk result (λ inner. (contents : Contents)
        → AreWays contents root.now (W.ways ways.now) → HaveAll 4 contents bodies.now
        → AreInner contents root.now (W.ways ways.now) inner) }
{
    let flagged = flagged_routers(alloc, ways, bodies)?;
    let advertised = boundary_routes(alloc, root, &flagged, bodies)?;
    let mut offers = inner_offers(alloc, root, ways, &flagged, bodies)?;
    let networks = routes_of_offers(alloc, &mut offers)?;
    let lengths = lengths_of(&networks);
    Ok(InnerRoutes {
        flagged,
        boundary_routes: advertised,
        networks,
        lengths,
        offers,
    })
}
