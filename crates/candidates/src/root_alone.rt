//! The results from the LSAs of types 1 to 4 if the root alone is reached, as before its first
//! neighbor is Full: its own router-LSA tells all of them, so no other LSA is visited.
ghost use Rattle.std.specs.Prelude.{◌≡◌, IfOk, OnOk, option_copied};
ghost use Rattle.candidates.specs.Alone.{OfOne, list_of};
ghost use Rattle.candidates.specs.Borders.{FlaggedDistancesFit, AscendByRouter, TellsFlags};
ghost use Rattle.candidates.specs.Gathering.{Adds, OfferCostsFit, IsOnly};
ghost use Rattle.candidates.specs.Inner.{AreInner, AreSearchable};
ghost use Rattle.candidates.specs.Reached.{alone, way_in};
ghost use Rattle.candidates.specs.Sources.{IsInner};
ghost use Rattle.candidates.specs.Ways.{DistancesFit, AreWays};
ghost use Rattle.routes.specs.Contents.{contents_at};
ghost use Rattle.routes.specs.declared.node.Node.{Node as NodeAt};

use crate::area::push_inner;
use crate::flagged::{Flagged, flagged_at};
use crate::inner::InnerRoutes;
use crate::order::routes_of_offers;
use crate::search::lengths_of;
use crate::ways::Ways;
use lsa::LsaBody;
use lsdb::Lsdb;
use routes::{Offer, Root};
use std::alloc::{AllocError, Global};
use words::{Key, Second, router_key};

// The router whose LSA has this key and body, if it has a flag and is reachable.
fn flagged_by<W: Ways>(ways: &W, key: &Key, body: Option<&LsaBody>) -> Option<Flagged>
    ensures { IsOnly (OfOne (TellsFlags (W.ways ways.now)) key.now (option_copied body.entry))
        result }
{
    match body {
        None => None,
        Some(body) => flagged_at(ways, key, body),
    }
}

// A list of the router, if there is one.
fn listed(alloc: Global, router: Option<Flagged>) -> Result<Vec<Flagged>, AllocError>
    ensures { IfOk result (λ routers. routers.items ≡ list_of router) }
{
    let mut routers = Vec::new(alloc);
    if let Some(router) = router {
        routers.push(router)?;
    }
    Ok(routers)
}

// Adds what the LSA with this key and body offers within the area and between areas.
fn push_by<W: Ways>(
    root: &Root,
    ways: &W,
    routers: &[Flagged],
    key: &Key,
    body: Option<&LsaBody>,
    offers: &mut Vec<Offer>,
) -> Result<(), AllocError>
    requires near { DistancesFit (W.ways ways.now) }
    requires ascend { AscendByRouter routers.now }
    requires close { FlaggedDistancesFit routers.now }
    ensures adds { OnOk result (Adds offers.old.items offers.new.items
        (OfOne (IsInner root.now (W.ways ways.now) routers.now) key.now
        (option_copied body.entry))) }
    ensures cheap { OnOk result (OfferCostsFit offers.old.items → OfferCostsFit offers.new.items) }
{
    match body {
        None => Ok(()),
        Some(body) => push_inner(root, ways, routers, key, body, offers),
    }
}

/// The results from the LSAs of types 1 to 4 if the root alone is reached.
///
/// # Errors
/// `AllocError` if an allocation is refused.
pub fn inner_alone<W: Ways>(
    alloc: Global,
    db: &Lsdb,
    root: &Root,
    moment: Second,
    ways: &W,
) -> Result<InnerRoutes, AllocError>
    requires near { DistancesFit (W.ways ways.now) }
    requires alone { (node : NodeAt) → W.ways ways.now node ≡ way_in (alone root.now) node }
    requires ways { AreWays (contents_at moment db.now.present) root.now (W.ways ways.now) }
    ensures searchable { IfOk result (λ inner. AreSearchable inner) }
    ensures inner { IfOk result (λ inner. AreInner (contents_at moment db.now.present) root.now
        (W.ways ways.now) inner) }
{
    let key = router_key(root.router);
    let body = db.body_at(moment, &key);
    let flagged = listed(alloc, flagged_by(ways, &key, body))?;
    let mut none = Vec::new(alloc);
    let advertised = routes_of_offers(alloc, &mut none)?;
    let mut offers = Vec::new(alloc);
    push_by(root, ways, &flagged, &key, body, &mut offers)?;
    let networks = routes_of_offers(alloc, &mut offers)?;
    let lengths = lengths_of(&networks);
    Ok(InnerRoutes {
        flagged,
        boundary_routes: advertised,
        networks,
        lengths,
        offers,
    })
}
